// What a run does. The contract of a function that does nothing.
ghost use Rattle.std.specs.Prelude.{ℕ};
ghost use Rattle.frp_tree.specs.Tree.{ProgramTree};
ghost use Rattle.map_file.specs.declared.maps.Map.{Map as AnyMap};
ghost use Rattle.timed_core.specs.Timing.{Timing};
ghost use Rattle.firmware_parts.specs.Layout.{Layout};
ghost use Rattle.scratch_commit.specs.Plans.{Plan};
ghost use Rattle.run_steps.specs.Laws.{RunDoes};

/// Where the items of an event's run stand in program memory, it does all that is asked of a run: it saves and masks, clears its
/// flag, works with interrupts on or off, commits only what no other run has made void, and returns with the context of what it
/// interrupted, whatever arrives and whichever runs come between.
pub fn run_does()
    ensures { (p : ProgramTree) (m : AnyMap) (t : Timing) (l : Layout) (marks : ℕ → ℕ) (starting : ℕ) (start : ℕ) (plans : ℕ → Plan) (e : ℕ)
        → RunDoes p m t l marks starting start plans e }
{}
