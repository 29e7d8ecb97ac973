// Faults that have one name, before the name is copied.
ghost use Rattle.std.specs.Prelude.{◌≡◌, IfOk};
ghost use Rattle.efrp_types.specs.NameFaults.{fault_if};
ghost use Rattle.efrp_types.specs.Answers.{Tells};
ghost use Rattle.efrp_types.specs.Reasons.{fault_of};
ghost use Rattle.efrp_types.specs.declared.faults.CheckFault.TheVariants.{ClauseTwice};

use crate::faults::CheckFault;
use frp_tree::{Text, Ty};
use std::alloc::{AllocError, Global};

/// What is wrong with a name, or with an expression whose owner has it.
#[derive(Clone, Copy, Debug, PartialEq, Eq)]
pub enum Reason {
    Twice,
    UnknownSource,
    SourceTwice,
    BadPriority(u16),
    BadRegister,
    OutputTwice,
    UnknownEvent,
    UnknownName,
    TableUse,
    LiteralRange,
    BadShift,
    TypeOf { wanted: Ty, found: Ty },
}

/// The fault with a copy of the name. An `Err` is out of memory.
pub fn fault(alloc: Global, reason: Reason, name: &Text) -> Result<CheckFault, AllocError>
    ensures { IfOk result (λ fault. fault ≡ fault_of reason name.now) }
{
    let name = name.copy(alloc)?;
    Ok(match reason {
        Reason::Twice => CheckFault::Twice(name),
        Reason::UnknownSource => CheckFault::UnknownSource(name),
        Reason::SourceTwice => CheckFault::SourceTwice(name),
        Reason::BadPriority(n) => CheckFault::BadPriority { event: name, n },
        Reason::BadRegister => CheckFault::BadRegister(name),
        Reason::OutputTwice => CheckFault::OutputTwice(name),
        Reason::UnknownEvent => CheckFault::UnknownEvent(name),
        Reason::UnknownName => CheckFault::UnknownName(name),
        Reason::TableUse => CheckFault::TableUse(name),
        Reason::LiteralRange => CheckFault::LiteralRange(name),
        Reason::BadShift => CheckFault::BadShift(name),
        Reason::TypeOf { wanted, found } => CheckFault::TypeOf {
            owner: name,
            wanted,
            found,
        },
    })
}

/// Tells the fault where it is there.
pub fn refuse_if(alloc: Global, is_bad: bool, reason: Reason, name: &Text) -> Result<(), CheckFault>
    ensures { Tells (fault_if is_bad (fault_of reason name.now)) result }
{
    if is_bad {
        return Err(fault(alloc, reason, name)?);
    }
    Ok(())
}

/// Tells a second clause for an event, where there is one.
pub fn refuse_clause_if(
    alloc: Global,
    is_bad: bool,
    owner: &Text,
    event: &Text,
) -> Result<(), CheckFault>
    ensures { Tells (fault_if is_bad (ClauseTwice owner.now event.now)) result }
{
    if is_bad {
        return Err(CheckFault::ClauseTwice {
            decl: owner.copy(alloc)?,
            event: event.copy(alloc)?,
        });
    }
    Ok(())
}
