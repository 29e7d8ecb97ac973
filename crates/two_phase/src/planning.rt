// The plan of an event.
ghost use Rattle.std.specs.Prelude.{◌≡◌, ◌<◌, ◌++◌, false, length, map, true, IfOk, OnOk, Some};
ghost use Rattle.std.specs.List.{flat_map, range_with_len};
ghost use Rattle.frp_tree.specs.Tree.{DeclTree, behaviour_of, decl_of, program_tree_of};
ghost use Rattle.efrp_meaning.specs.Meaning.{rule_on};
ghost use Rattle.efrp_meaning.specs.Needs.{reacting};
ghost use Rattle.efrp_types.specs.Numbers.{decl_number, event_name};
ghost use Rattle.causality.specs.Orders.{IsOrder};
ghost use Rattle.event_needs.specs.Needed.{needed_on};
ghost use Rattle.two_phase.specs.Assigned.{assigned, reacts};
ghost use Rattle.two_phase.specs.Plans.{IsPlan, PlanGives, is_wanted_by};

use crate::plans::{Assign, Plan};
use causality::Checked;
use efrp_types::Typed;
use event_needs::{clause_on, event_name, marks};
use frp_tree::{Behaviour, Decl, List, Text};
use std::alloc::{AllocError, Global};

// Whether the event assigns the definition, where it is told whether it needs its own expression.
fn is_wanted(event: &Text, d: &Decl, needed: bool, next: bool) -> bool
    ensures { result ≡ is_wanted_by needed next (rule_on event.now (behaviour_of d.now.behaviour)) }
{
    match &d.behaviour {
        Behaviour::Plain(_) => needed && !next,
        _ => match clause_on(event, d) {
            Some(clause) if next => clause.later,
            Some(clause) => !clause.later,
            None => false,
        },
    }
}

// Adds the assignment of the definition with this number, where the event wants it.
fn assign(
    work: &mut List<Assign>,
    typed: &Typed,
    event: &Text,
    needed: &[bool],
    decl: u8,
    next: bool,
) -> Result<(), AllocError>
    requires needed { needed.now ≡ needed_on (program_tree_of typed.now.program) event.now }
    requires inside { decl < length typed.now.program.decls }
    ensures { OnOk result (work.new ≡ work.old ++ assigned (program_tree_of typed.now.program) event.now next decl) }
{
    let d = &typed.program().decls.as_slice()[decl as usize];
    if is_wanted(event, d, needed[decl as usize], next) {
        work.push(Assign { decl, next })?;
    }
    Ok(())
}

// Adds the assignments of values, in the event's order.
fn assign_values(
    work: &mut List<Assign>,
    typed: &Typed,
    event: &Text,
    needed: &[bool],
    order: &[u8],
) -> Result<(), AllocError>
    requires needed { needed.now ≡ needed_on (program_tree_of typed.now.program) event.now }
    requires ordered { IsOrder (program_tree_of typed.now.program) event.now order.now }
    ensures { OnOk result (work.new ≡ work.old ++ flat_map (assigned (program_tree_of typed.now.program) event.now false) order.now) }
{
    for decl in order {
        assign(work, typed, event, needed, *decl, false)?;
    }
    Ok(())
}

// Adds the assignments of new states by `later` clauses, in declaration order.
fn assign_states(
    work: &mut List<Assign>,
    typed: &Typed,
    event: &Text,
    needed: &[bool],
) -> Result<(), AllocError>
    requires { needed.now ≡ needed_on (program_tree_of typed.now.program) event.now }
    ensures { OnOk result (work.new ≡ work.old ++ flat_map (assigned (program_tree_of typed.now.program) event.now true) (range_with_len 0 (length typed.now.program.decls))) }
{
    for decl in 0..typed.program().decls.len() {
        assign(work, typed, event, needed, decl as u8, true)?;
    }
    Ok(())
}

// Whether the definition reacts to the event.
fn reacts(event: &Text, d: &Decl) -> bool
    ensures { result ≡ reacts event.now (decl_of d.now) }
{
    match clause_on(event, d) {
        Some(_clause) => true,
        None => false,
    }
}

// The numbers of the definitions that react to an event, in declaration order.
fn reacting(alloc: Global, typed: &Typed, event: &Text) -> Result<List<u8>, AllocError>
    ensures { IfOk result (λ ns. map Some ns ≡ map (λ (d : DeclTree). decl_number (program_tree_of typed.now.program) d.name) (reacting (program_tree_of typed.now.program) event.now)) }
{
    let decls = typed.program().decls.as_slice();
    let mut numbers = List::new(alloc);
    for n in 0..decls.len() {
        if reacts(event, &decls[n]) {
            numbers.push(n as u8)?;
        }
    }
    Ok(numbers)
}

/// The plan of the event with this number, which has to be one: the values that it needs in the event's order, and behind
/// them the new states of its `later` clauses in declaration order; and the definitions whose states it sets. An `Err` is
/// out of memory. The time is in proportion to the program's nodes, beside the look-up of each name.
pub fn plan(alloc: Global, c: &Checked, event: u8) -> Result<Plan, AllocError>
    requires { event < length c.now.typed.program.events }
    ensures plan { IfOk result (IsPlan (program_tree_of c.now.typed.program) (event_name (program_tree_of c.now.typed.program) event)) }
    ensures gives { IfOk result (PlanGives (program_tree_of c.now.typed.program) (event_name (program_tree_of c.now.typed.program) event)) }
{
    let typed = c.typed();
    let name = event_name(typed.program(), event);
    let needed = marks(alloc, c, event)?;
    let mut work = List::new(alloc);
    assign_values(&mut work, typed, name, needed.as_slice(), c.order(event))?;
    assign_states(&mut work, typed, name, needed.as_slice())?;
    let commit = reacting(alloc, typed, name)?;
    Ok(Plan { work, commit })
}
