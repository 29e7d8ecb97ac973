// What an event assigns, and which states it sets.
use frp_tree::List;

/// An assignment of the definition with this number: of its value on the event or, with `next`, of its new state by a
/// `later` clause.
#[derive(Clone, Copy, Debug, PartialEq, Eq)]
pub struct Assign {
    pub decl: u8,
    pub next: bool,
}

/// The assignments of an event in their order, and the numbers of the definitions whose states it sets, in declaration
/// order.
#[derive(Debug, Drop)]
pub struct Plan {
    pub work: List<Assign>,
    pub commit: List<u8>,
}
