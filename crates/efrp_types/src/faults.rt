// Why a program isn't typed.
use frp_tree::{Text, Ty};
use std::alloc::AllocError;

/// The first fault of a program's names or types. The owner of an expression is its definition's name, or the name of its
/// output's port.
#[derive(Debug, Drop)]
pub enum CheckFault {
    /// An event or a definition has the name of one before it.
    Twice(Text),
    /// No source has this name.
    UnknownSource(Text),
    /// An event before has this source.
    SourceTwice(Text),
    /// The event's priority isn't 1 to 11.
    BadPriority { event: Text, n: u16 },
    /// A setup may not name this register; or no port has this name.
    BadRegister(Text),
    /// An output before has this port.
    OutputTwice(Text),
    /// A clause is for an event that there isn't.
    UnknownEvent(Text),
    /// A clause before is for the same event.
    ClauseTwice { decl: Text, event: Text },
    /// No definition has this name.
    UnknownName(Text),
    /// A definition that is no table is indexed, or a table's name stands without an index.
    TableUse(Text),
    /// A number above 255 without the suffix: of the owner's, or of the setup of this register.
    LiteralRange(Text),
    /// The amount of a shift is the width of its operand or more.
    BadShift(Text),
    /// One type was wanted and another found.
    TypeOf { owner: Text, wanted: Ty, found: Ty },
    /// Out of memory.
    Memory,
}

impl From<AllocError> for CheckFault {
    ghost use Rattle.std.specs.Prelude.{◌≡◌};
    ghost use Rattle.efrp_types.specs.declared.faults.CheckFault.TheVariants.{Memory};

    ghost from_gives = { λ _ fault. fault ≡ Memory };

    fn from(_error: AllocError) -> CheckFault {
        CheckFault::Memory
    }
}
