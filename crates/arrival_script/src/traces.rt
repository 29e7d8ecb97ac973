// The trace of an image under a script.
ghost use Rattle.std.specs.Prelude.{◌≡◌, ◌≤◌, IsErrOf};
ghost use Rattle.edge_io.specs.Counts.{Rose};
ghost use Rattle.hex_file.specs.Written.{IsWritable};
ghost use Rattle.pic_machine.specs.Run.{run};
ghost use Rattle.map_file.specs.MapRules.{IsMap};
ghost use Rattle.arrival_script.specs.Scripts.{IsScript};
ghost use Rattle.arrival_script.specs.Trace.{Traces, outers_of, start_of};

use crate::marked_addresses::marked_addresses;
use crate::scripts::Script;
use crate::tracer::Tracer;
use edge_io::{PutFault, Sink};
use hex_file::Image;
use map_file::Map;
use pic_machine::Why;
use std::alloc::{AllocError, Global};

/// Why a trace isn't whole.
#[derive(Clone, Copy, Debug, PartialEq, Eq)]
pub enum TraceFault {
    /// The chip stopped at this step, at this address, in words.
    Stopped { step: u32, address: u16, why: Why },
    /// A put failed. The sink's count of put faults rose.
    Failed,
    /// Out of memory.
    Memory,
}

impl From<PutFault> for TraceFault {
    ghost use Rattle.std.specs.Prelude.{◌≡◌};
    ghost use Rattle.arrival_script.specs.TraceFaults.{fault_of_put};

    ghost from_gives = { λ put fault. fault ≡ fault_of_put put };

    fn from(fault: PutFault) -> TraceFault {
        match fault {
            PutFault::Failed => TraceFault::Failed,
            PutFault::Memory => TraceFault::Memory,
        }
    }
}

impl From<AllocError> for TraceFault {
    ghost use Rattle.std.specs.Prelude.{◌≡◌};
    ghost use Rattle.arrival_script.specs.declared.traces.TraceFault.TheVariants.{Memory};

    ghost from_gives = { λ _ fault. fault ≡ Memory };

    fn from(_error: AllocError) -> TraceFault {
        TraceFault::Memory
    }
}

/// Puts the trace of an image under a script: for each step the lines of what arrived, a taking, inputs that were
/// sampled, events that opened, a byte on a port and events that committed with the states, and a last line with the
/// greatest depth and the states.
/// `Stopped` exactly where the chip stops within the script's steps and no put failed before; the text up to the stop
/// was put. After `Failed` and after `Memory` a prefix of the text was put.
pub fn trace<S: Sink>(
    alloc: Global,
    image: &Image,
    map: &Map,
    s: &Script,
    out: &mut S,
) -> Result<(), TraceFault>
    requires writable { IsWritable image.now }
    requires map { IsMap map.now }
    requires script { IsScript s.now }
    ensures traced { Traces map.now (run image.now (start_of s.now) (outers_of s.now)) s.now.steps (S.seen out.old).taken (S.seen out.new).taken result }
    ensures failed { IsErrOf result TraceFault.Failed → Rose (S.seen out.old).put_faults (S.seen out.new).put_faults }
    ensures count { (S.seen out.old).put_faults ≤ (S.seen out.new).put_faults }
{
    let marked = marked_addresses(map);
    let mut tracer = Tracer::new(alloc, image, s);
    let mut step = 0;
    while step < s.steps {
        step = tracer.advance(alloc, map, &marked, step, s.steps, out)?;
    }
    tracer.finish(alloc, map, s.steps, out)
}
