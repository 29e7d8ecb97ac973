// An event that occurs, and why a text is no events file.
use frp_tree::List;
use std::alloc::AllocError;

/// An event of a program by its number, counted from 0 in declaration order, and what the inputs read then: a byte for
/// each, in declaration order.
#[derive(Debug, Drop)]
pub struct Occurrence {
    pub event: u8,
    pub samples: List<u8>,
}

/// Why a text states no events of a program.
#[derive(Clone, Copy, Debug, PartialEq, Eq)]
pub enum EventsFault {
    /// The first line, counted from 1, that isn't empty and states no event of the program.
    Unknown(u32),
    /// Each line that isn't empty states an event, and there are more than 10,000.
    TooMany,
    /// Out of memory.
    Memory,
}

impl From<AllocError> for EventsFault {
    ghost use Rattle.std.specs.Prelude.{◌≡◌};
    ghost use Rattle.event_file.specs.declared.occurrences.EventsFault.TheVariants.{Memory};

    ghost from_gives = { λ _ fault. fault ≡ Memory };

    fn from(_error: AllocError) -> EventsFault {
        EventsFault::Memory
    }
}
