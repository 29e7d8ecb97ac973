// Why a text has no tokens or no tree.
use frp_tree::Kind;
use std::alloc::AllocError;

/// Why a text has no tokens or no tree. Bytes and tokens are numbered from 0.
#[derive(Clone, Copy, Debug, PartialEq, Eq)]
pub enum SyntaxFault {
    /// No token, blank or comment begins at this byte, or a name or a digit follows a number there.
    BadByte(u32),
    /// The name at this byte is longer than 31 bytes, or the number there is above 65,535. At byte 65,536: the
    /// text is longer than that.
    TooBig(u32),
    /// This many tokens are the longest prefix with which some program begins.
    Unexpected(u32),
    /// This token opens a nesting of 65.
    TooDeep(u32),
    /// There is one too many of this kind: of the program, or an entry too many for its table.
    TooMany(Kind),
    /// Out of memory.
    Memory,
}

impl From<AllocError> for SyntaxFault {
    ghost use Rattle.std.specs.Prelude.{◌≡◌};
    ghost use Rattle.efrp_syntax.specs.declared.faults.SyntaxFault.TheVariants.{Memory};

    ghost from_gives = { λ _ fault. fault ≡ Memory };

    fn from(_error: AllocError) -> SyntaxFault {
        SyntaxFault::Memory
    }
}
