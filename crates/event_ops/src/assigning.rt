// Assignments of a plan, and outputs, as operations.
ghost use Rattle.std.specs.Prelude.{◌≡◌, ◌+◌, ◌<◌, length, IfOk, OnOk};
ghost use Rattle.frp_tree.specs.Tree.{program_tree_of};
ghost use Rattle.expr_lower.specs.Places.{is_wide};
ghost use Rattle.event_ops.specs.Drafts.{CanPut, IsDraftedTo, IsReady, Shows};

use crate::drafts::Draft;
use crate::results::Put;
use causality::Checked;
use event_needs::clause_on;
use frp_tree::{Behaviour, List, Text, Ty};
use pic_isa::port_named;
use std::alloc::{AllocError, Global};
use two_phase::Plan;

// Whether a value of this type takes two cells.
fn is_wide(ty: Ty) -> bool
    ensures { result ≡ is_wide ty }
{
    ty == Ty::U16
}

// Does the assignment with this number of an event's plan: a value is bound, and one of a reactive definition, or its new state,
// is copied when the event commits.
pub(crate) fn assign(
    draft: &mut Draft,
    alloc: Global,
    c: &Checked,
    event: &Text,
    plan: &Plan,
    k: usize,
) -> Result<(), AllocError>
    requires ready { IsReady (program_tree_of c.now.typed.program) event.now plan.now }
    requires inside { k < length plan.now.work }
    requires so_far { IsDraftedTo (program_tree_of c.now.typed.program) event.now plan.now k draft.old }
    ensures { OnOk result (IsDraftedTo (program_tree_of c.now.typed.program) event.now plan.now (k + 1) draft.new) }
{
    let assign = plan.work.as_slice()[k];
    let d = &c.typed().program().decls.as_slice()[assign.decl as usize];
    match clause_on(event, d) {
        Some(clause) => {
            let wide = is_wide(d.ty);
            let at = draft.add_lasting(alloc, c, &clause.expr, wide)?;
            draft.copy_to(assign.decl, wide, at)?;
            if assign.next {
                return Ok(());
            }
            draft.cells.bind(assign.decl, at);
            Ok(())
        }
        None => match &d.behaviour {
            Behaviour::Plain(e) => {
                let at = draft.add(alloc, c, e)?;
                draft.cells.bind(assign.decl, at);
                Ok(())
            }
            _ => unreachable!(),
        },
    }
}

// Adds the outputs' values, and answers which cells are put on which ports.
pub(crate) fn add_outputs(
    draft: &mut Draft,
    alloc: Global,
    c: &Checked,
) -> Result<List<Put>, AllocError>
    requires { CanPut (program_tree_of c.now.typed.program) draft.old (program_tree_of c.now.typed.program).outputs }
    ensures { IfOk result (Shows (program_tree_of c.now.typed.program) draft.old draft.new (program_tree_of c.now.typed.program).outputs) }
{
    let mut puts = List::new(alloc);
    let outputs = c.typed().program().outputs.as_slice();
    for output in outputs {
        let from = draft.add_lasting(alloc, c, &output.expr, false)?.low;
        match port_named(output.port.as_str()) {
            Some(port) => puts.push(Put { from, port })?,
            None => unreachable!(),
        }
    }
    Ok(puts)
}
