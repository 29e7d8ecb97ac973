// What comes of an event's plan: operations, and what the commit copies and puts.
use byte_ops::Op;
use frp_tree::List;

/// A cell that is copied to a state's cell when the event commits.
#[derive(Clone, Copy, Debug, PartialEq, Eq)]
pub struct Copied {
    pub from: u16,
    pub to: u16,
}

/// A cell whose byte is put on a port, 0 to 4, when the event commits.
#[derive(Clone, Copy, Debug, PartialEq, Eq)]
pub struct Put {
    pub from: u16,
    pub port: u8,
}

/// What an event does with bytes: the operations of its work, in order; and when it commits, which cells are copied to those of
/// states, and which are put on ports, in the order of the outputs. The cells are the first `cells` numbers, those of states first;
/// the work writes none of these, and what is copied or put lies in others.
#[derive(Debug, Drop)]
pub struct EventOps {
    pub ops: List<Op>,
    pub copies: List<Copied>,
    pub puts: List<Put>,
    pub cells: u32,
}
