// Why a source text gives no program that passes the checks.
use efrp_syntax::SyntaxFault;
use efrp_types::CheckFault;
use frp_tree::Text;
use std::alloc::AllocError;

/// The first fault of a source text. Neither fault within is its own out of memory.
#[derive(Debug, Drop)]
pub enum SourceFault {
    /// The text breaks off, or passes a limit.
    Syntax(SyntaxFault),
    /// The program's names or types have this fault.
    Check(CheckFault),
    /// On this event this definition depends on itself.
    Cycle { event: Text, name: Text },
    /// Out of memory.
    Memory,
}

impl From<AllocError> for SourceFault {
    ghost use Rattle.std.specs.Prelude.{◌≡◌};
    ghost use Rattle.checked_source.specs.declared.faults.SourceFault.TheVariants.{Memory};

    ghost from_gives = { λ _ fault. fault ≡ Memory };

    fn from(_error: AllocError) -> SourceFault {
        SourceFault::Memory
    }
}
