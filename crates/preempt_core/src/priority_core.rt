// The core as code: it keeps a mark a run.

ghost use Rattle.std.specs.Prelude.{◌≡◌, ℕ, List, [], replicate, false};
ghost use Rattle.preempt_core.specs.declared.steps.Step.TheVariants as steps;
ghost use Rattle.preempt_core.specs.Marks.{mark_is_left, mark_priority, marked_step, marks_of};
ghost use Rattle.preempt_core.specs.Runs.{start};
ghost use Rattle.preempt_core.specs.Standing.{FewEvents, Standing, core_of, answer_of, core_after};

use crate::runs::{Run, void_all};
use crate::steps::{Done, Step};
use crate::urgency::most_urgent;
use std::marker::Model;

/// The core of priorities: events that wait, and runs that interrupt one another.
#[derive(Drop)]
pub struct Core<'a> {
    priorities: &'a [u8],
    latched: [bool; 11],
    runs: [Run; 11],
    top: usize,
}

impl<'a> Model for Core<'a> {
    ghost use Rattle.preempt_core.specs.Standing.{Standing, InOrder, marks_from};

    ghost Value = { Standing };

    ghost view = { λ c. record { priorities = c.priorities.now; latched = c.latched; runs = marks_from c.top c.runs } };

    ghost invariant = { λ c. InOrder c.priorities.now c.top c.runs };
}

impl<'a> Core<'a> {
    /// The core at the start, where no event waits and no run is under way, as before the first step of a list. The priorities are those of the events by their
    /// numbers, at most 11 of at most 11.
    pub fn new(priorities: &'a [u8]) -> Core<'a>
        requires { FewEvents priorities.now }
        ensures empty { result ≡ record { priorities = priorities.now; latched = replicate 11 false; runs = [] } }
        ensures starts { (state : List ℕ) → core_of result ≡ marks_of (start state) }
    {
        Core {
            priorities,
            latched: [false; 11],
            runs: [Run {
                event: 0,
                void: false,
                committed: false,
            }; 11],
            top: 11,
        }
    }

    /// Takes a step, and says what it did. None comes exactly where the step isn't allowed, and the core is then as before.
    pub fn step(&mut self, s: Step) -> Option<Done>
        ensures answers { result ≡ answer_of (marked_step self.old.priorities (core_of self.old) s) }
        ensures leaves { core_of self.new ≡ core_after (core_of self.old) (marked_step self.old.priorities (core_of self.old) s) }
        ensures keeps { self.new.priorities ≡ self.old.priorities }
    {
        match s {
            Step::Arrive(e) => self.arrive(e),
            Step::Take => self.take(),
            Step::Work => self.work(),
            Step::Redo => self.redo(),
            Step::Commit => self.commit(),
            Step::Resume => self.resume(),
        }
    }

    fn arrive(&mut self, e: u8) -> Option<Done>
        ensures answers { result ≡ answer_of (marked_step self.old.priorities (core_of self.old) (steps.Arrive e)) }
        ensures leaves { core_of self.new ≡ core_after (core_of self.old) (marked_step self.old.priorities (core_of self.old) (steps.Arrive e)) }
        ensures keeps { self.new.priorities ≡ self.old.priorities }
    {
        let at = e as usize;
        if at >= self.priorities.len() {
            return None;
        }
        if self.latched[at] {
            return Some(Done::Merged(e));
        }
        self.latched[at] = true;
        Some(Done::Latched(e))
    }

    fn take(&mut self) -> Option<Done>
        ensures answers { result ≡ answer_of (marked_step self.old.priorities (core_of self.old) steps.Take) }
        ensures leaves { core_of self.new ≡ core_after (core_of self.old) (marked_step self.old.priorities (core_of self.old) steps.Take) }
        ensures keeps { self.new.priorities ≡ self.old.priorities }
    {
        if self.is_left() {
            return None;
        }
        let event = most_urgent(self.priorities, &self.latched)?;
        if self.top_priority() >= self.priorities[event as usize] {
            return None;
        }
        self.latched[event as usize] = false;
        self.top -= 1;
        self.runs[self.top] = Run {
            event,
            void: false,
            committed: false,
        };
        Some(Done::Took(event))
    }

    /// Whether the top run has committed; false where there is none.
    fn is_left(&self) -> bool
        ensures { result ≡ mark_is_left self.now.runs }
    {
        match self.runs.get(self.top) {
            Some(run) => run.committed,
            None => false,
        }
    }

    /// The priority of the top run, 0 where there is none.
    fn top_priority(&self) -> u8
        ensures { result ≡ mark_priority self.now.priorities self.now.runs }
    {
        match self.runs.get(self.top) {
            Some(run) => self.priorities[run.event as usize],
            None => 0,
        }
    }

    fn work(&self) -> Option<Done>
        ensures { result ≡ answer_of (marked_step self.now.priorities (core_of self.now) steps.Work) }
    {
        let run = self.runs.get(self.top)?;
        if run.committed {
            None
        } else {
            Some(Done::Worked)
        }
    }

    fn redo(&mut self) -> Option<Done>
        ensures answers { result ≡ answer_of (marked_step self.old.priorities (core_of self.old) steps.Redo) }
        ensures leaves { core_of self.new ≡ core_after (core_of self.old) (marked_step self.old.priorities (core_of self.old) steps.Redo) }
        ensures keeps { self.new.priorities ≡ self.old.priorities }
    {
        let run = *self.runs.get(self.top)?;
        if !run.void {
            return None;
        }
        let again = Run {
            event: run.event,
            void: false,
            committed: false,
        };
        self.runs[self.top] = again;
        Some(Done::Redone(run.event))
    }

    fn commit(&mut self) -> Option<Done>
        ensures answers { result ≡ answer_of (marked_step self.old.priorities (core_of self.old) steps.Commit) }
        ensures leaves { core_of self.new ≡ core_after (core_of self.old) (marked_step self.old.priorities (core_of self.old) steps.Commit) }
        ensures keeps { self.new.priorities ≡ self.old.priorities }
    {
        let run = *self.runs.get(self.top)?;
        if run.committed || run.void {
            return None;
        }
        self.runs[self.top].committed = true;
        void_all(&mut self.runs[self.top + 1..]);
        Some(Done::Committed(run.event))
    }

    fn resume(&mut self) -> Option<Done>
        ensures answers { result ≡ answer_of (marked_step self.old.priorities (core_of self.old) steps.Resume) }
        ensures leaves { core_of self.new ≡ core_after (core_of self.old) (marked_step self.old.priorities (core_of self.old) steps.Resume) }
        ensures keeps { self.new.priorities ≡ self.old.priorities }
    {
        if !self.runs.get(self.top)?.committed {
            return None;
        }
        self.top += 1;
        Some(Done::Resumed)
    }
}
