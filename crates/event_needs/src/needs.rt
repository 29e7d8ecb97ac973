// The public marks: which definitions are named in what an event needs, and which non-reactive ones it needs.
ghost use Rattle.std.specs.Prelude.{◌≡◌, ◌<◌, ◌&&◌, length, IfOk};
ghost use Rattle.frp_tree.specs.Tree.{behaviour_of, program_tree_of};
ghost use Rattle.efrp_meaning.specs.Decls.{is_plain};
ghost use Rattle.efrp_types.specs.Numbers.{event_name};
ghost use Rattle.event_needs.specs.Needed.{named_on, needed_on};

use crate::lookups::event_name;
use crate::walks::{mark_clauses, mark_outputs, mark_plain, no_marks};
use causality::Checked;
use frp_tree::{Behaviour, Decl, List};
use std::alloc::{AllocError, Global};

/// For each definition, by its number, whether it is named in an expression that the event of this number needs. An `Err`
/// is out of memory. The time is in proportion to the program's nodes, beside the look-up of each name.
pub fn named(alloc: Global, c: &Checked, event: u8) -> Result<List<bool>, AllocError>
    requires { event < length c.now.typed.program.events }
    ensures { IfOk result (λ v. v ≡ named_on (program_tree_of c.now.typed.program) (event_name (program_tree_of c.now.typed.program) event)) }
{
    let typed = c.typed();
    let name = event_name(typed.program(), event);
    let mut marked = no_marks(alloc, typed.program().decls.len())?;
    mark_clauses(typed, name, &mut marked);
    mark_outputs(typed, name, &mut marked);
    mark_plain(c, event, &mut marked);
    Ok(List::from_vec(marked))
}

fn is_needed(d: &Decl, is_named: bool) -> bool
    ensures { result ≡ (is_plain (behaviour_of d.now.behaviour) && is_named) }
{
    match &d.behaviour {
        Behaviour::Plain(_) => is_named,
        _ => false,
    }
}

/// For each definition, by its number, whether it is a non-reactive one whose own expression the event of this number
/// needs, beside those of its clauses and of the outputs. An `Err` is out of memory. The time is in proportion to the
/// program's nodes, beside the look-up of each name.
pub fn marks(alloc: Global, c: &Checked, event: u8) -> Result<List<bool>, AllocError>
    requires { event < length c.now.typed.program.events }
    ensures { IfOk result (λ v. v ≡ needed_on (program_tree_of c.now.typed.program) (event_name (program_tree_of c.now.typed.program) event)) }
{
    let named = named(alloc, c, event)?;
    let decls = c.typed().program().decls.as_slice();
    let mut marks = List::new(alloc);
    for i in 0..decls.len() {
        marks.push(is_needed(&decls[i], named.as_slice()[i]))?;
    }
    Ok(marks)
}
