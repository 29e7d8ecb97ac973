// The run of the image of a large program, and what is counted over it.
ghost use Rattle.std.specs.Prelude.{◌≡◌, ◌+◌, ◌<◌, ◌≤◌, ◌^◌, ℕ, length, IfOk};
ghost use Rattle.std.specs.List.{AllByRecursion};
ghost use Rattle.hex_file.specs.declared.images.Image.{Image as Images};
ghost use Rattle.hex_file.specs.Written.{IsWritable};
ghost use Rattle.map_file.specs.declared.maps.Map.{Map as Maps};
ghost use Rattle.map_file.specs.MapRules.{IsMap};
ghost use Rattle.pic_regs.specs.Arrivals.{set_of};
ghost use Rattle.pic_machine.specs.Boundary.{Step, stepped};
ghost use Rattle.pic_machine.specs.Dids.{is_run_at};
ghost use Rattle.pic_machine.specs.Run.{Log};
ghost use Rattle.arrival_script.specs.Sends.{RiseFrom};
ghost use Rattle.arrival_script.specs.Trace.{set_at};
ghost use Rattle.firmware_promises.specs.Counts.{committed_by};
ghost use Rattle.large_program.specs.Arrivals.{arrivals};
ghost use Rattle.large_run.specs.Tallies.{HasRun, HasRunWhole, IsFew, IsTally, as_script, steps_of};

use hex_file::Image;
use large_program::{OneArrival, arrivals, arrivals_rise};
use map_file::{Map, MapEvent};
use pic_machine::{Chip, Did, Stepped};
use pic_regs::Start;
use std::alloc::{AllocError, Global};

/// What is counted over the steps of a run: arrivals that were latched and that were merged, commits, and the greatest depth of the
/// return stack after a step.
#[derive(Clone, Copy, Debug)]
pub struct Tally {
    pub latched: u64,
    pub merged: u64,
    pub commits: u64,
    pub deepest: u8,
}

/// How a run ended: the chip after its last step, and what was counted.
#[derive(Drop)]
pub struct Ran {
    pub chip: Chip,
    pub tally: Tally,
}

// The chip, what arrives from the next boundary on, and what is counted so far.
#[derive(Drop)]
struct Run<'a> {
    pub chip: Chip,
    pending: &'a [OneArrival],
    pub tally: Tally,
}

// Whether a step ran the commit address of an event.
fn is_commit(event: &MapEvent, did: Did) -> bool
    ensures { result ≡ is_run_at event.now.commit did }
{
    match did {
        Did::Ran { address, .. } => address == event.commit,
        Did::Took | Did::Stopped { .. } => false,
    }
}

// How many events a step committed.
fn committed(map: &Map, did: Did) -> u64
    ensures is { (step : Step) → step.did ≡ did → result ≡ length (committed_by map.now step) }
    ensures few { result ≤ length map.now.events }
{
    let mut count = 0;
    for event in map.events.as_slice() {
        if is_commit(event, did) {
            count += 1;
        }
    }
    count
}

impl Tally {
    // Counts a step after which the return stack is so deep.
    fn count(&mut self, map: &Map, report: &Stepped, depth: u8)
        requires small { (self.old.latched + 16 < 2 ^ 64) × ((self.old.merged + 16 < 2 ^ 64) × (self.old.commits + length map.now.events < 2 ^ 64)) }
        ensures counted { (log : Log) → (k : ℕ) → report.now ≡ stepped (log k) → depth ≡ (log k).after.depth
            → IsTally map.now log k self.old → IsTally map.now log (k + 1) self.new }
        ensures few { (k : ℕ) → length map.now.events ≤ 11 → IsFew k self.old → IsFew (k + 1) self.new }
    {
        self.latched += u64::from(report.latched.count_ones());
        self.merged += u64::from(report.merged.count_ones());
        self.commits += committed(map, report.did);
        self.deepest = self.deepest.max(depth);
    }
}

// The source that arrives at a boundary, as a set, and the arrivals after it.
fn next_arrival(pending: &[OneArrival], boundary: u64) -> (u16, &[OneArrival])
    requires rise { RiseFrom boundary (as_script pending.now) }
    requires sources { AllByRecursion (λ a. a.source < 11) pending.now }
    ensures set { set_of result.0 ≡ set_at (as_script pending.now) boundary }
    ensures known { result.0 < 2048 }
    ensures later { (k : ℕ) → boundary < k → set_at (as_script result.1.now) k ≡ set_at (as_script pending.now) k }
    ensures rise { RiseFrom (boundary + 1) (as_script result.1.now) }
    ensures sources { AllByRecursion (λ a. a.source < 11) result.1.now }
{
    let [first, later @ ..] = pending else {
        return (0, pending);
    };
    if u64::from(first.at) == boundary {
        (1 << first.source, later)
    } else {
        (0, pending)
    }
}

impl<'a> Run<'a> {
    // The run before its first step, with RAM, W and flags 0.
    fn new(image: &Image, pending: &'a [OneArrival]) -> Run<'a>
        requires writable { IsWritable image.now }
        requires rise { RiseFrom 0 (as_script pending.now) }
        ensures begun { (n : ℕ) → (m : Maps) → pending.now ≡ arrivals n → HasRun n image.now m 0 result }
        ensures pending { result.pending.now ≡ pending.now }
        ensures few { IsFew 0 result.tally }
    {
        let start = Start {
            ram: [0; 368],
            w: 0,
            flags: 0,
        };
        Run {
            chip: Chip::power_on(image, &start),
            pending,
            tally: Tally {
                latched: 0,
                merged: 0,
                commits: 0,
                deepest: 0,
            },
        }
    }

    // One step, with what arrives at its boundary.
    fn step(&mut self, map: &Map, boundary: u64)
        requires rise { RiseFrom boundary (as_script self.old.pending.now) }
        requires sources { AllByRecursion (λ a. a.source < 11) self.old.pending.now }
        requires rules { IsMap map.now }
        requires soon { boundary < 2 ^ 40 }
        requires few { IsFew boundary self.old.tally }
        ensures ran { (n : ℕ) → (image : Images) → boundary < steps_of n map.now → HasRun n image map.now boundary self.old → HasRun n image map.now (boundary + 1) self.new }
        ensures rise { RiseFrom (boundary + 1) (as_script self.new.pending.now) }
        ensures sources { AllByRecursion (λ a. a.source < 11) self.new.pending.now }
        ensures few { IsFew (boundary + 1) self.new.tally }
    {
        let (sources, later) = next_arrival(self.pending, boundary);
        self.pending = later;
        let report = self.chip.step(sources, false);
        self.tally.count(map, &report, self.chip.depth());
    }

    // The run of an image from power-on with RAM filled with 0, through so many steps.
    fn of(image: &Image, map: &Map, pending: &'a [OneArrival], steps: u64) -> Run<'a>
        requires writable { IsWritable image.now }
        requires rules { IsMap map.now }
        requires rise { RiseFrom 0 (as_script pending.now) }
        requires sources { AllByRecursion (λ a. a.source < 11) pending.now }
        requires steps { steps < 2 ^ 40 }
        ensures { (n : ℕ) → pending.now ≡ arrivals n → steps ≡ steps_of n map.now → HasRun n image.now map.now steps result }
    {
        let mut run = Run::new(image, pending);
        for boundary in 0..steps {
            run.step(map, boundary);
        }
        run
    }
}

// How many steps the run takes: to the last arrival's boundary, the map's settle, and one more.
fn steps_of(all: &[OneArrival], map: &Map) -> u64
    ensures is { (n : ℕ) → all.now ≡ arrivals n → result ≡ steps_of n map.now }
    ensures few { result < 2 ^ 40 }
{
    let last = match all {
        [.., last] => u64::from(last.at),
        [] => 0,
    };
    last + u64::from(map.settle) + 1
}

/// The run of an image of a number's program from power-on, RAM, W and flags being 0, on the number's 200 arrivals: to the last
/// arrival's boundary, through the map's settle, and one step more. An `Err` is out of memory.
pub fn large_run(alloc: Global, n: u32, image: &Image, map: &Map) -> Result<Ran, AllocError>
    requires writable { IsWritable image.now }
    requires rules { IsMap map.now }
    ensures { IfOk result (HasRunWhole n image.now map.now) }
{
    arrivals_rise();
    let all = arrivals(alloc, n)?;
    let steps = steps_of(all.as_slice(), map);
    let run = Run::of(image, map, all.as_slice(), steps);
    Ok(Ran {
        chip: run.chip,
        tally: run.tally,
    })
}
