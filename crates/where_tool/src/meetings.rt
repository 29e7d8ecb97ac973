// What a part's check tells, as a step of a walk.
ghost use Rattle.std.specs.Prelude.{◌≡◌, Option as Maybe, List as Items, Some};
ghost use Rattle.frp_tree.specs.declared.syntax.Ty.{Ty as AnyTy};
ghost use Rattle.efrp_types.specs.declared.faults.CheckFault.{CheckFault as AnyFault};
ghost use Rattle.efrp_types.specs.Answers.{Tells, TellsType};
ghost use Rattle.where_tool.specs.Visits.{visit};
ghost use Rattle.where_tool.specs.Walks.{Goes, Walks};

use crate::parts::{Halted, Part};
use efrp_types::CheckFault;
use frp_tree::Ty;

// A fault is met at the part, unless it is out of memory.
fn halted(part: Part, fault: CheckFault) -> Halted
    ensures memory { fault ≡ CheckFault.Memory → result ≡ Halted.Memory }
    ensures met { (fault ≡ CheckFault.Memory → ⊥) → result ≡ Halted.Met part }
{
    match fault {
        CheckFault::Memory => Halted::Memory,
        _ => Halted::Met(part),
    }
}

/// The walk goes on, where the part has no fault.
pub fn met(part: Part, told: Result<(), CheckFault>) -> Result<(), Halted>
    ensures { (faults : Items AnyFault) → Tells faults told → Goes (visit part faults) result }
{
    match told {
        Ok(()) => Ok(()),
        Err(fault) => Err(halted(part, fault)),
    }
}

/// The same, with the type of the part.
pub fn met_type(part: Part, told: Result<Ty, CheckFault>) -> Result<Ty, Halted>
    ensures { (faults : Items AnyFault) (type : Maybe AnyTy) → TellsType faults type told → Walks (visit part faults) (λ t. type ≡ Some t) result }
{
    match told {
        Ok(ty) => Ok(ty),
        Err(fault) => Err(halted(part, fault)),
    }
}
