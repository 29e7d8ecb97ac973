// Programs in which no definition depends on itself, and an order of the definitions on each event.
ghost use Rattle.std.specs.Prelude.{◌≡◌, ◌<◌, ℕ, [], get_or, length};
ghost use Rattle.std.proofs.Props.{props};
ghost use Rattle.frp_tree.specs.Tree.{program_tree_of};
ghost use Rattle.efrp_meaning.specs.Causal.{IsCausal};
ghost use Rattle.efrp_types.specs.Numbers.{event_name};
ghost use Rattle.causality.specs.Orders.{IsOrder};

use efrp_types::Typed;
use frp_tree::List;

/// A typed program in which no definition depends on itself on an event, with an order of the definitions on each.
#[derive(Debug, Drop)]
pub struct Checked {
    typed: Typed,
    orders: List<List<u8>>,
    ghost causal: { IsCausal (program_tree_of typed.program) } by { Prim.hlevel props },
    ghost events: { length orders ≡ length typed.program.events },
    ghost ordered: { (event : ℕ) → event < length typed.program.events → IsOrder (program_tree_of typed.program) (event_name (program_tree_of typed.program) event) (get_or orders event []) } by { Prim.hlevel props },
}

impl Checked {
    /// A typed program with these orders. Takes no memory.
    pub(crate) fn new(typed: Typed, orders: List<List<u8>>) -> Checked
        requires causal { IsCausal (program_tree_of typed.program) }
        requires events { length orders ≡ length typed.program.events }
        requires ordered { (event : ℕ) → event < length typed.program.events → IsOrder (program_tree_of typed.program) (event_name (program_tree_of typed.program) event) (get_or orders event []) }
        ensures { result.typed.program ≡ typed.program }
    {
        Checked { typed, orders }
    }

    /// The typed program. Takes no memory.
    pub fn typed(&self) -> &Typed
        ensures { result.now ≡ self.now.typed }
    {
        &self.typed
    }

    /// The numbers of the definitions in their order on the event of this number. Takes no memory.
    pub fn order(&self, event: u8) -> &[u8]
        requires { event < length self.now.typed.program.events }
        ensures { IsOrder (program_tree_of self.now.typed.program) (event_name (program_tree_of self.now.typed.program) event) result.now }
    {
        self.orders.as_slice()[event as usize].as_slice()
    }
}
