// Why nothing is built of a program.

use std::alloc::AllocError;

/// Why nothing is built of a program. They are tested in this order.
#[derive(Clone, Copy, Debug, PartialEq, Eq)]
pub enum BuildFault {
    /// It has an input or a table.
    Form,
    /// It has so many distinct priorities, more than 8.
    Stack(u32),
    /// By its bound it needs so many bytes of general RAM, more than 352.
    Ram(u32),
    /// Its image has so many words, more than 8,192.
    Code(u32),
    /// Out of memory.
    Memory,
}

impl From<AllocError> for BuildFault {
    ghost use Rattle.std.specs.Prelude.{◌≡◌};
    ghost use Rattle.firmware.specs.declared.faults.BuildFault.TheVariants.{Memory};

    ghost from_gives = { λ _ fault. fault ≡ Memory };

    fn from(_error: AllocError) -> BuildFault {
        BuildFault::Memory
    }
}
