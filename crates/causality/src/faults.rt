// Why a program has no orders.
use frp_tree::Text;
use std::alloc::AllocError;

/// Why a program has no orders.
#[derive(Debug, Drop)]
pub enum CycleFault {
    /// On this event the definition of this name depends on itself. It is the first event on which one does, and the
    /// first definition that does on it.
    Cycle { event: Text, name: Text },
    /// Out of memory.
    Memory,
}

impl From<AllocError> for CycleFault {
    ghost use Rattle.std.specs.Prelude.{◌≡◌};
    ghost use Rattle.causality.specs.declared.faults.CycleFault.TheVariants.{Memory};

    ghost from_gives = { λ _ fault. fault ≡ Memory };

    fn from(_error: AllocError) -> CycleFault {
        CycleFault::Memory
    }
}
