// Why bytes are read as no map.
use std::alloc::AllocError;

/// Why bytes are read as no map.
#[derive(Clone, Copy, Debug, PartialEq, Eq)]
pub enum MapFault {
    /// The first line, counted from 1, that isn't in the form at its place. A line that is missing, or that lacks
    /// its LF, isn't in the form.
    Line(u32),
    /// Out of memory.
    Memory,
}

impl From<AllocError> for MapFault {
    ghost use Rattle.std.specs.Prelude.{◌≡◌};
    ghost use Rattle.map_file.specs.declared.faults.MapFault.TheVariants.{Memory};

    ghost from_gives = { λ _ fault. fault ≡ Memory };

    fn from(_error: AllocError) -> MapFault {
        MapFault::Memory
    }
}
