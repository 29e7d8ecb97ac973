// The command `run`.
ghost use Rattle.std.specs.Prelude.{◌≤◌};
ghost use Rattle.hex_file.specs.Written.{IsWritable};
ghost use Rattle.map_file.specs.MapRules.{IsMap};
ghost use Rattle.arrival_script.specs.Scripts.{IsScript};
ghost use Rattle.frp_tool.specs.Runs.{RunWorks, Traced};

use arrival_script::{TraceFault, trace};
use command_parts::{Halt, REFUSED};
use edge_io::{Files, Sink};
use frp_tree::Text;
use run_inputs::{Parts, read_parts, stop_line};
use std::alloc::Global;

// Puts the trace, up to where the chip stops. No line is left to be put where it doesn't.
fn traced<S: Sink>(alloc: Global, parts: &Parts, out: &mut S) -> Result<Option<String>, Halt>
    requires writable { IsWritable parts.now.image }
    requires map { IsMap parts.now.map }
    requires script { IsScript parts.now.script }
    ensures traced { Traced parts.now (S.seen out.old) (S.seen out.new) result }
    ensures count { (S.seen out.old).put_faults ≤ (S.seen out.new).put_faults }
{
    match trace(alloc, &parts.image, &parts.map, &parts.script, out) {
        Ok(()) => Ok(None),
        Err(TraceFault::Stopped { step, address, why }) => Err(Halt::Said {
            status: REFUSED,
            line: stop_line(alloc, step, address, why)?,
        }),
        Err(TraceFault::Failed) => Err(Halt::PutFailed),
        Err(TraceFault::Memory) => Err(Halt::Memory),
    }
}

/// The work of `run HEX MAP SCRIPT`: reads all three, and puts the trace.
pub fn run<F: Files, S: Sink>(
    alloc: Global,
    hex: &Text,
    map: &Text,
    script: &Text,
    files: &mut F,
    out: &mut S,
) -> Result<Option<String>, Halt>
    ensures works { RunWorks (record { hex = hex.now; map = map.now; script = script.now })
        (record { files = F.seen files.old; out = S.seen out.old }) (record { files = F.seen files.new; out = S.seen out.new }) result }
    ensures count { (S.seen out.old).put_faults ≤ (S.seen out.new).put_faults }
{
    let parts = read_parts(alloc, hex, map, script, files)?;
    traced(alloc, &parts, out)
}
