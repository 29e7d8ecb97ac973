// Text that is held back until it is long, and then put.
ghost use Rattle.std.specs.Prelude.{◌≡◌, ◌≤◌, false, string_bytes, IsErrOf, MatchOption};
ghost use Rattle.edge_io.specs.Counts.{Rose};
ghost use Rattle.pic_machine.specs.Boundary.{Step, stepped};
ghost use Rattle.pic_machine.specs.State.{chip_of};
ghost use Rattle.pic_machine.specs.Dids.{is_stop};
ghost use Rattle.map_file.specs.MapRules.{IsMap};
ghost use Rattle.arrival_script.specs.Sends.{Flushes, Tells};
ghost use Rattle.arrival_script.specs.Trace.{step_lines};

use crate::lines::write_step;
use crate::traces::TraceFault;
use edge_io::Sink;
use map_file::Map;
use pic_machine::{Chip, Did, Stepped, Why};
use std::alloc::Global;

/// The length of text, in bytes, from which on it is put.
const PAGE: usize = 4096;

// Where and why a step stopped.
fn stop_of(did: Did) -> Option<(u16, Why)>
    ensures { MatchOption result (is_stop did ≡ false) (λ stop. did ≡ Did.Stopped stop.0 stop.1) }
{
    match did {
        Did::Stopped { address, why } => Some((address, why)),
        Did::Took | Did::Ran { .. } => None,
    }
}

/// Puts the text that is held back. Its memory is kept.
pub(crate) fn flush<S: Sink>(
    alloc: Global,
    text: &mut String,
    out: &mut S,
) -> Result<(), TraceFault>
    ensures sent { Flushes (S.seen out.old).taken (string_bytes text.old) (S.seen out.new).taken (string_bytes text.new) result }
    ensures failed { IsErrOf result TraceFault.Failed → Rose (S.seen out.old).put_faults (S.seen out.new).put_faults }
    ensures count { (S.seen out.old).put_faults ≤ (S.seen out.new).put_faults }
{
    out.put(alloc, text.as_bytes())?;
    text.clear();
    Ok(())
}

/// Adds the lines of a step, if any, and puts the text where it is long or the step stopped.
pub(crate) fn tell_step<S: Sink>(
    alloc: Global,
    text: &mut String,
    map: &Map,
    step: u32,
    report: &Stepped,
    chip: &Chip,
    out: &mut S,
) -> Result<(), TraceFault>
    requires { IsMap map.now }
    ensures sent { (told : Step) → report.now ≡ stepped told → chip_of chip.now ≡ told.after
        → Tells step told (S.seen out.old).taken (string_bytes text.old) (S.seen out.new).taken (string_bytes text.new) (step_lines map.now step told) result }
    ensures failed { IsErrOf result TraceFault.Failed → Rose (S.seen out.old).put_faults (S.seen out.new).put_faults }
    ensures count { (S.seen out.old).put_faults ≤ (S.seen out.new).put_faults }
{
    write_step(text, map, step, report, chip)?;
    if let Some((address, why)) = stop_of(report.did) {
        flush(alloc, text, out)?;
        return Err(TraceFault::Stopped { step, address, why });
    }
    if text.len() < PAGE {
        return Ok(());
    }
    flush(alloc, text, out)
}
