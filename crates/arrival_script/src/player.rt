// A run of a script on the chip, a step at a time.
ghost use Rattle.std.specs.Prelude.{◌+◌, ◌<◌};
ghost use Rattle.hex_file.specs.declared.images.Image.{Image as Images};
ghost use Rattle.hex_file.specs.Written.{IsWritable};
ghost use Rattle.pic_machine.specs.State.{chip_of};
ghost use Rattle.arrival_script.specs.declared.scripts.Script.{Script as Scripts};
ghost use Rattle.arrival_script.specs.Scripts.{IsScript};
ghost use Rattle.arrival_script.specs.Sends.{ChangeFrom, RiseFrom};
ghost use Rattle.arrival_script.specs.Running.{log_of};
ghost use Rattle.arrival_script.specs.Playing.{IsSeen, Played};

use crate::scripts::{Arrival, Late, PinChange, Script};
use crate::tracer::{is_late_at, next_arrivals, set_pins, start_of};
use hex_file::Image;
use pic_machine::{Chip, Did, PortWrite};

/// The chip, when interrupts are late, and the arrivals and changes of pins from the next boundary on.
#[derive(Drop)]
pub struct Player<'a> {
    pub chip: Chip,
    late: Late,
    pending: &'a [Arrival],
    changes: &'a [PinChange],
}

/// What is seen of a step: the sources whose flag is set after its arrivals, as a set, what it did, and what it put on a port.
#[derive(Clone, Copy, Debug)]
pub struct Seen {
    pub arrived: u16,
    pub did: Did,
    pub port: Option<PortWrite>,
}

impl<'a> Player<'a> {
    /// The run of an image before its first step. Takes no memory.
    pub fn new(image: &Image, script: &'a Script) -> Player<'a>
        requires writable { IsWritable image.now }
        requires script { IsScript script.now }
        ensures { Played image.now script.now 0 result }
    {
        Player {
            chip: Chip::power_on(image, &start_of(script)),
            late: script.late,
            pending: script.arrivals.as_slice(),
            changes: script.pins.as_slice(),
        }
    }

    /// One step, with what the script says comes at its boundary.
    pub fn step(&mut self, boundary: u32) -> Seen
        requires change { ChangeFrom boundary self.old.changes.now }
        requires rise { RiseFrom boundary self.old.pending.now }
        ensures seen { (image : Images) → (s : Scripts) → boundary < s.steps → Played image s boundary self.old
            → IsSeen (log_of image s boundary) result }
        ensures played { (image : Images) → (s : Scripts) → boundary < s.steps → Played image s boundary self.old
            → Played image s (boundary + 1) self.new }
    {
        self.changes = set_pins(&mut self.chip, self.changes, boundary);
        let (sources, later) = next_arrivals(self.pending, boundary);
        self.pending = later;
        self.chip.arrive(sources);
        let arrived = self.chip.regs().flags();
        let report = self.chip.step(0x000, is_late_at(self.late, boundary));
        Seen {
            arrived,
            did: report.did,
            port: report.port,
        }
    }
}
