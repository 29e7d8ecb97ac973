// What a token begins, and what a reader of tokens answers.
use frp_tree::{Kind, List, Token};
use std::alloc::{AllocError, AllocFailed};

/// What one token begins: the kind of it, if it is counted; and, where it is an entry, its number in its table, from
/// 1, else 0.
#[derive(Clone, Copy, Debug, PartialEq, Eq)]
pub struct Begun {
    pub kind: Option<Kind>,
    pub entry: usize,
}

/// What the tokens that were read begin, one for each.
pub type Notes = List<Begun>;

/// Nothing that is counted.
pub const NOTHING: Begun = Begun {
    kind: None,
    entry: 0,
};

/// A node of an expression.
pub const NODE: Begun = Begun {
    kind: Some(Kind::Nodes),
    entry: 0,
};

/// Why a reader of tokens stops. The number is how many tokens are left, from the one on at which it stops.
#[derive(Clone, Copy, Debug, PartialEq, Eq)]
pub enum Stop {
    /// Nothing that is read goes on with this token.
    Unexpected(usize),
    /// This token opens a nesting past the limit.
    TooDeep(usize),
    /// Out of memory.
    Memory,
}

/// What a reader of tokens answers: what it read and the tokens behind that, or why it stops.
pub type Read<'a, T> = Result<(T, &'a [Token]), Stop>;

impl From<AllocError> for Stop {
    ghost use Rattle.std.specs.Prelude.{◌≡◌};
    ghost use Rattle.efrp_syntax.specs.declared.begun.Stop.TheVariants.{Memory};

    ghost from_gives = { λ _ stop. stop ≡ Memory };

    fn from(_error: AllocError) -> Stop {
        Stop::Memory
    }
}

impl<T: Drop> From<AllocFailed<T>> for Stop {
    ghost use Rattle.std.specs.Prelude.{◌≡◌};
    ghost use Rattle.efrp_syntax.specs.declared.begun.Stop.TheVariants.{Memory};

    ghost from_gives = { λ _ stop. stop ≡ Memory };

    fn from(_error: AllocFailed<T>) -> Stop {
        Stop::Memory
    }
}
