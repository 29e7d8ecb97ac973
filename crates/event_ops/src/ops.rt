// The operations of an event.
ghost use Rattle.std.specs.Prelude.{◌≡◌, ◌+◌, ◌<◌, ◌≤◌, [], length, IfOk};
ghost use Rattle.frp_tree.specs.Tree.{program_tree_of};
ghost use Rattle.efrp_meaning.specs.Bounds.{scratch_bytes, state_bytes};
ghost use Rattle.efrp_meaning.specs.Decls.{inputs_of};
ghost use Rattle.efrp_types.specs.Numbers.{event_name};
ghost use Rattle.two_phase.specs.Plans.{IsPlan};
ghost use Rattle.event_ops.specs.Works.{HasNoLooks, Works};

use crate::assigning::{add_outputs, assign};
use crate::drafts::Draft;
use crate::results::EventOps;
use causality::Checked;
use event_needs::event_name;
use std::alloc::{AllocError, Global};
use two_phase::Plan;

/// What the event with this number, of a program without inputs and look-ups in tables, does with bytes by this plan. An `Err` is
/// out of memory. The time is in proportion to the nodes of what the event needs, beside the look-up of each name.
pub fn event_ops(alloc: Global, c: &Checked, event: u8, plan: &Plan) -> Result<EventOps, AllocError>
    requires is_event { event < length c.now.typed.program.events }
    requires plan { IsPlan (program_tree_of c.now.typed.program) (event_name (program_tree_of c.now.typed.program) event) plan.now }
    requires no_look { HasNoLooks (program_tree_of c.now.typed.program) }
    requires no_inputs { inputs_of (program_tree_of c.now.typed.program) ≡ [] }
    requires room { state_bytes (program_tree_of c.now.typed.program) + scratch_bytes (program_tree_of c.now.typed.program) (event_name (program_tree_of c.now.typed.program) event) ≤ 65536 }
    ensures { IfOk result (Works (program_tree_of c.now.typed.program) (event_name (program_tree_of c.now.typed.program) event)) }
{
    let name = event_name(c.typed().program(), event);
    let mut draft = Draft::new(alloc, c)?;
    for k in 0..plan.work.len() {
        assign(&mut draft, alloc, c, name, plan, k)?;
    }
    let puts = add_outputs(&mut draft, alloc, c)?;
    Ok(EventOps {
        ops: draft.ops,
        copies: draft.copies,
        puts,
        cells: draft.cells.count(),
    })
}
