// The definitions of a large program.
ghost use Rattle.std.specs.Prelude.{◌≡◌, ◌<◌, IfOk};
ghost use Rattle.frp_tree.specs.Tree.{clause_of, decl_of};
ghost use Rattle.large_program.specs.Draws.{after_draws};
ghost use Rattle.large_program.specs.LargePrograms.{clause, definition};

use crate::draws::Draws;
use crate::expressions::{definition_name, event_name, expression, literal_for, type_of};
use frp_tree::{Behaviour, Clause, Decl, List};
use std::alloc::{AllocError, Global};

/// Draws the clause of definition i for an event.
fn clause(alloc: Global, i: u32, event: u32, draws: &mut Draws) -> Result<Clause, AllocError>
    ensures { IfOk result (λ c. (clause_of c ≡ clause i event draws.old.number) × (draws.new.number ≡ after_draws 3 draws.old.number)) }
{
    let form = draws.below(4);
    let k = draws.below(200) as u16;
    let later = draws.below(2) == 1;
    Ok(Clause {
        event: event_name(alloc, event)?,
        expr: expression(alloc, i, form, k)?,
        later,
    })
}

/// Draws definition i. An `Err` is out of memory.
pub(crate) fn definition(alloc: Global, i: u16, draws: &mut Draws) -> Result<Decl, AllocError>
    ensures { IfOk result (λ d. (decl_of d ≡ definition i draws.old.number) × (draws.new.number ≡ after_draws 8 draws.old.number)) }
{
    let number = u32::from(i);
    let first = draws.below(11);
    let second = (first + 1 + draws.below(10)) % 11;
    let mut clauses = List::new(alloc);
    clauses.push(clause(alloc, number, first, draws)?)?;
    clauses.push(clause(alloc, number, second, draws)?)?;
    Ok(Decl {
        name: definition_name(alloc, number)?,
        ty: type_of(number),
        behaviour: Behaviour::Reactive {
            init: literal_for(number, i),
            clauses,
        },
    })
}
