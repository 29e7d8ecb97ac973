// Why a command halts.
use std::alloc::AllocError;

/// Why a command halts: with this status, when this line was put; since a put of its own failed; or since memory ran out.
#[derive(Debug, Drop)]
pub enum Halt {
    Said { status: u8, line: String },
    PutFailed,
    Memory,
}

impl From<AllocError> for Halt {
    ghost use Rattle.std.specs.Prelude.{◌≡◌};
    ghost use Rattle.command_parts.specs.declared.halts.Halt.TheVariants.{Memory};

    ghost from_gives = { λ _ halt. halt ≡ Memory };

    fn from(_error: AllocError) -> Halt {
        Halt::Memory
    }
}
