// A run of a script that is traced, step by step.
ghost use Rattle.std.specs.Prelude.{◌≡◌, ◌+◌, ◌<◌, ◌≤◌, ℕ, List as Items, Option as Maybe, IfOk, IsErrOf};
ghost use Rattle.edge_io.specs.Counts.{Rose};
ghost use Rattle.hex_file.specs.declared.images.Image.{Image as Images};
ghost use Rattle.hex_file.specs.Written.{IsWritable};
ghost use Rattle.pic_regs.specs.declared.arriving.Arrived.{Arrived as Arrivals};
ghost use Rattle.pic_regs.specs.Arrivals.{set_of};
ghost use Rattle.pic_machine.specs.Boundary.{with_changed_pins};
ghost use Rattle.pic_machine.specs.State.{chip_of, memory_of};
ghost use Rattle.map_file.specs.declared.maps.Map.{Map as Maps};
ghost use Rattle.map_file.specs.MapRules.{IsMap};
ghost use Rattle.arrival_script.specs.declared.scripts.Script.{Script as Scripts};
ghost use Rattle.arrival_script.specs.Scripts.{IsScript};
ghost use Rattle.arrival_script.specs.Sends.{ChangeFrom, RiseFrom};
ghost use Rattle.arrival_script.specs.Trace.{Traces, is_late_at, pins_at, set_at, start_of};
ghost use Rattle.arrival_script.specs.TraceParts.{Marks};
ghost use Rattle.arrival_script.specs.Running.{Running, Ready, Ran, Advances, log_of, with_arrived};

use crate::lines::write_end;
use crate::marked_addresses::{ADDRESSES, is_plain};
use crate::scripts::{Arrival, Late, PinChange, Script};
use crate::sends::{flush, tell_step};
use crate::traces::TraceFault;
use edge_io::Sink;
use hex_file::Image;
use map_file::Map;
use pic_machine::{Chip, Stepped};
use pic_regs::{Arrived, Start};
use std::alloc::Global;

/// The chip, when interrupts are late, the arrivals and the changes of pins from the next boundary on, the greatest
/// depth after any step so far, and the text that is held back.
#[derive(Drop)]
pub(crate) struct Tracer<'a> {
    chip: Chip,
    late: Late,
    pending: &'a [Arrival],
    changes: &'a [PinChange],
    deepest: u32,
    text: String,
}

/// The chip's start by a script.
pub(crate) fn start_of(script: &Script) -> Start
    ensures { result ≡ start_of script.now }
{
    Start {
        ram: [script.fill; 368],
        w: script.fill,
        flags: script.fill,
    }
}

/// The sources that arrive at a boundary, as a set, and the arrivals after it.
pub(crate) fn next_arrivals(pending: &[Arrival], boundary: u32) -> (u16, &[Arrival])
    requires { RiseFrom boundary pending.now }
    ensures set { set_of result.0 ≡ set_at pending.now boundary }
    ensures known { result.0 < 2048 }
    ensures later { (k : ℕ) → boundary < k → set_at result.1.now k ≡ set_at pending.now k }
    ensures rise { RiseFrom (boundary + 1) result.1.now }
{
    let [first, later @ ..] = pending else {
        return (0, pending);
    };
    if first.at == boundary {
        (first.sources, later)
    } else {
        (0, pending)
    }
}

/// Sets the pins that change at a boundary, and answers the changes after it.
pub(crate) fn set_pins<'a>(
    chip: &mut Chip,
    changes: &'a [PinChange],
    boundary: u32,
) -> &'a [PinChange]
    requires { ChangeFrom boundary changes.now }
    ensures chip { chip_of chip.new ≡ with_changed_pins (pins_at changes.now boundary) (chip_of chip.old) }
    ensures memory { memory_of chip.new ≡ memory_of chip.old }
    ensures later { (k : ℕ) → boundary < k → pins_at result.now k ≡ pins_at changes.now k }
    ensures change { ChangeFrom (boundary + 1) result.now }
{
    let mut rest = changes;
    while let [first, later @ ..] = rest {
        if first.at != boundary {
            return rest;
        }
        chip.set_pins(first.port, first.byte);
        rest = later;
    }
    rest
}

// The first boundary from one on at which one of these comes, and at most the end.
fn next_boundary(pending: &[Arrival], changes: &[PinChange], boundary: u32, end: u32) -> u32
    requires inside { boundary ≤ end }
    requires change { ChangeFrom boundary changes.now }
    requires rise { RiseFrom boundary pending.now }
    ensures inside { (boundary ≤ result) × (result ≤ end) }
    ensures change { ChangeFrom result changes.now }
    ensures rise { RiseFrom result pending.now }
{
    let arrival = match pending {
        [first, ..] => first.at,
        [] => end,
    };
    let change = match changes {
        [first, ..] => first.at,
        [] => end,
    };
    end.min(arrival).min(change)
}

/// Whether a requested interrupt is late at a boundary.
pub(crate) fn is_late_at(late: Late, boundary: u32) -> bool
    ensures { result ≡ is_late_at late boundary }
{
    match late {
        Late::Never => false,
        Late::Always => true,
        Late::Odd => boundary % 2 == 1,
    }
}

// The report of a step with what arrived at its boundary.
fn with_arrived(arrived: &Arrived, report: Stepped) -> Stepped
    ensures { result ≡ with_arrived arrived.now report }
{
    Stepped {
        latched: arrived.latched,
        merged: arrived.merged,
        ..report
    }
}

impl<'a> Tracer<'a> {
    /// The run before its first step. Takes no memory.
    pub(crate) fn new(alloc: Global, image: &Image, script: &'a Script) -> Tracer<'a>
        requires writable { IsWritable image.now }
        requires script { IsScript script.now }
        ensures { (m : Maps) → (out : Maybe (Items ℕ)) → Running m image.now script.now 0 result out out }
    {
        Tracer {
            chip: Chip::power_on(image, &start_of(script)),
            late: script.late,
            pending: script.arrivals.as_slice(),
            changes: script.pins.as_slice(),
            deepest: 0,
            text: String::new(alloc),
        }
    }

    // Sets the pins that change at a boundary and the flags of the sources that arrive there, and says which were latched
    // and which were merged.
    fn take_in(&mut self, boundary: u32) -> Arrived
        requires change { ChangeFrom boundary self.old.changes.now }
        requires rise { RiseFrom boundary self.old.pending.now }
        ensures ready { (m : Maps) → (image : Images) → (s : Scripts) → (old new : Maybe (Items ℕ)) → boundary < s.steps
            → Running m image s boundary self.old old new → Ready m image s boundary result self.new old new }
        ensures change { ChangeFrom (boundary + 1) self.new.changes.now }
        ensures rise { RiseFrom (boundary + 1) self.new.pending.now }
    {
        self.changes = set_pins(&mut self.chip, self.changes, boundary);
        let (sources, later) = next_arrivals(self.pending, boundary);
        self.pending = later;
        self.chip.arrive(sources)
    }

    // The boundary up to which steps can be run one after the other: no later arrival or change comes before it, and where
    // something arrived at the step, it is the next one.
    fn quiet_until(&self, arrived: &Arrived, step: u32, steps: u32) -> u32
        requires inside { step < steps }
        requires change { ChangeFrom (step + 1) self.now.changes.now }
        requires rise { RiseFrom (step + 1) self.now.pending.now }
        ensures inside { (step < result) × (result ≤ steps) }
        ensures change { ChangeFrom result self.now.changes.now }
        ensures rise { RiseFrom result self.now.pending.now }
        ensures alone { step + 1 < result → (arrived.now.latched ≡ 0) × (arrived.now.merged ≡ 0) }
    {
        if arrived.latched == 0 && arrived.merged == 0 {
            next_boundary(self.pending, self.changes, step + 1, steps)
        } else {
            step + 1
        }
    }

    // Runs a step after what came at its boundary, and reports it without what arrived there.
    fn run_step(&mut self, late: bool) -> Stepped
        ensures ran { (m : Maps) → (image : Images) → (s : Scripts) → (k : ℕ) → (a : Arrivals) → (old new : Maybe (Items ℕ))
            → k < s.steps → late ≡ is_late_at s.late k → Ready m image s k a self.old old new
            → Ran m image s k (with_arrived a result) self.new old new }
        ensures change { self.new.changes.now ≡ self.old.changes.now }
        ensures rise { self.new.pending.now ≡ self.old.pending.now }
    {
        let report = self.chip.step(0x000, late);
        self.deepest = self.deepest.max(u32::from(self.chip.depth()));
        report
    }

    // Runs steps from one on, at whose boundary this arrived, up to the first that may have a line, and at most up to the
    // boundary `until`. Answers the last step and its report, without what arrived. It isn't inlined, so that its loop is
    // compiled by itself: most of a run's time is spent here.
    #[inline(never)]
    fn run_quietly(
        &mut self,
        marked: &[bool; ADDRESSES],
        arrived: &Arrived,
        step: u32,
        until: u32,
    ) -> (u32, Stepped)
        requires inside { step < until }
        requires change { ChangeFrom until self.old.changes.now }
        requires rise { RiseFrom until self.old.pending.now }
        requires alone { step + 1 < until → (arrived.now.latched ≡ 0) × (arrived.now.merged ≡ 0) }
        ensures inside { (step ≤ result.0) × (result.0 < until) }
        ensures ran { (m : Maps) → (image : Images) → (s : Scripts) → (old new : Maybe (Items ℕ)) → until ≤ s.steps → Marks marked.now m
            → Ready m image s step arrived.now self.old old new
            → Ran m image s result.0 (with_arrived arrived.now result.1) self.new old new }
    {
        let late = self.late;
        let mut last = step;
        loop {
            let report = self.run_step(is_late_at(late, last));
            if last + 1 == until || !is_plain(marked, &report) {
                return (last, report);
            }
            last += 1;
        }
    }

    /// Runs the steps from one on that have no line and at whose boundaries nothing more comes, and one more, and tells
    /// its lines, if any. Answers how many steps are done.
    pub(crate) fn advance<S: Sink>(
        &mut self,
        alloc: Global,
        map: &Map,
        marked: &[bool; ADDRESSES],
        step: u32,
        steps: u32,
        out: &mut S,
    ) -> Result<u32, TraceFault>
        requires map { IsMap map.now }
        requires marked { Marks marked.now map.now }
        requires inside { step < steps }
        requires change { ChangeFrom step self.old.changes.now }
        requires rise { RiseFrom step self.old.pending.now }
        ensures further { IfOk result (λ next. (step < next) × (next ≤ steps)) }
        ensures traced { (image : Images) → (s : Scripts) → (old : Maybe (Items ℕ)) → steps ≡ s.steps
            → Running map.now image s step self.old old (S.seen out.old).taken
            → Advances map.now image s old (S.seen out.new).taken self.new result }
        ensures failed { IsErrOf result TraceFault.Failed → Rose (S.seen out.old).put_faults (S.seen out.new).put_faults }
        ensures count { (S.seen out.old).put_faults ≤ (S.seen out.new).put_faults }
    {
        let arrived = self.take_in(step);
        let until = self.quiet_until(&arrived, step, steps);
        let (last, quiet) = self.run_quietly(marked, &arrived, step, until);
        let report = with_arrived(&arrived, quiet);
        tell_step(alloc, &mut self.text, map, last, &report, &self.chip, out)?;
        Ok(last + 1)
    }

    /// Tells the line after the last step.
    pub(crate) fn finish<S: Sink>(
        &mut self,
        alloc: Global,
        map: &Map,
        steps: u32,
        out: &mut S,
    ) -> Result<(), TraceFault>
        requires { IsMap map.now }
        ensures traced { (image : Images) → (s : Scripts) → (old : Maybe (Items ℕ)) → steps ≡ s.steps
            → Running map.now image s steps self.old old (S.seen out.old).taken
            → Traces map.now (log_of image s) s.steps old (S.seen out.new).taken result }
        ensures failed { IsErrOf result TraceFault.Failed → Rose (S.seen out.old).put_faults (S.seen out.new).put_faults }
        ensures count { (S.seen out.old).put_faults ≤ (S.seen out.new).put_faults }
    {
        write_end(&mut self.text, map, steps, self.deepest, self.chip.regs())?;
        flush(alloc, &mut self.text, out)
    }
}
