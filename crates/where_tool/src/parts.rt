// The parts of a program at which the checks look, and why a walk over them halts.
use std::alloc::AllocError;

/// What has an expression: a definition that is one, a clause of a definition, or an output. All numbers count from 0.
#[derive(Clone, Copy, Debug, PartialEq, Eq)]
pub enum Host {
    Decl(usize),
    Clause { decl: usize, clause: usize },
    Output(usize),
}

/// A part of a program at which the checks look by itself. All numbers count from 0.
#[derive(Clone, Copy, Debug, PartialEq, Eq)]
pub enum Part {
    Event(usize),
    Setup(usize),
    /// A definition, but for its expressions, clauses and entries: its name, and its first value or its port.
    Decl(usize),
    /// An output, but for its expression.
    Output(usize),
    /// A clause, but for its expression.
    Clause { decl: usize, clause: usize },
    /// An entry of a table.
    Entry { decl: usize, entry: usize },
    /// A node of an expression: a literal, a name, an operator, an `if`, a conversion or a look-up, in the order of the text.
    Node { host: Host, node: usize },
}

/// Why a walk halts: it met a part that has a fault, or memory ran out.
#[derive(Clone, Copy, Debug, PartialEq, Eq)]
pub enum Halted {
    Met(Part),
    Memory,
}

impl From<AllocError> for Halted {
    ghost use Rattle.std.specs.Prelude.{◌≡◌};
    ghost use Rattle.where_tool.specs.declared.parts.Halted.TheVariants.{Memory};

    ghost from_gives = { λ _ halted. halted ≡ Memory };

    fn from(_error: AllocError) -> Halted {
        Halted::Memory
    }
}
