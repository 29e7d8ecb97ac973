// The work of each event.

ghost use Rattle.std.specs.Prelude.{◌<◌, length, IfOk};
ghost use Rattle.frp_tree.specs.Tree.{program_tree_of};
ghost use Rattle.firmware.specs.Builds.{HasCode};
ghost use Rattle.firmware.specs.Making.{AreNeeds, AreWorks, IsWorkFor};

use bank_alloc::Places;
use causality::Checked;
use event_code::{Work, work_of};
use event_ops::event_ops;
use std::alloc::{AllocError, Global};
use two_phase::plan;

// The work of the event with this number, of a program that has code, where its bytes are placed.
fn work(alloc: Global, c: &Checked, places: &Places, event: u8) -> Result<Work, AllocError>
    requires event { event < length c.now.typed.program.events }
    requires has_code { HasCode (program_tree_of c.now.typed.program) }
    requires needs { AreNeeds (program_tree_of c.now.typed.program) places.now.need }
    ensures { IfOk result (IsWorkFor (program_tree_of c.now.typed.program) places.now.need event) }
{
    let plan = plan(alloc, c, event)?;
    let ops = event_ops(alloc, c, event, &plan)?;
    work_of(alloc, &ops, places)
}

// The work of each event, by its number.
pub(crate) fn works_of(alloc: Global, c: &Checked, places: &Places) -> Result<Vec<Work>, AllocError>
    requires has_code { HasCode (program_tree_of c.now.typed.program) }
    requires needs { AreNeeds (program_tree_of c.now.typed.program) places.now.need }
    ensures { IfOk result (λ works. AreWorks (program_tree_of c.now.typed.program) places.now.need works.items) }
{
    let mut works = Vec::new(alloc);
    for event in 0..c.typed().program().events.len() {
        let one = work(alloc, c, places, event as u8)?;
        works.push(one)?;
    }
    Ok(works)
}
