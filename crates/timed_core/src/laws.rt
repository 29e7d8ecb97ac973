// The theorems about the timed core: what holds of each tale that it tells, at every moment.

ghost use Rattle.std.specs.Prelude.{ℕ};
ghost use Rattle.timed_core.specs.Timing.{Timing, IsListed, Within, Quick};
ghost use Rattle.timed_core.specs.Tale.{Tale};
ghost use Rattle.timed_core.specs.Shape.{KeepsShape, NestsByLevels, NeverStuck};
ghost use Rattle.timed_core.specs.Promises.{EachOnce, OpensInTurn, ClosesInTime, Ready, ComesOn, Listens, WorkOpens, NoOvertaking};
ghost use Rattle.timed_core.specs.Settling.{Settles};
ghost use Rattle.timed_core.specs.Response.{Accounted, AccountedFromBoot, Responds};

/// After each number of steps the phase and the stack fit together.
pub fn keeps_its_shape()
    ensures { (p : Timing) (tale : Tale p) → KeepsShape p tale }
{}

/// No more runs are under way at once than there are levels.
pub fn nests_by_levels()
    ensures { (p : Timing) (tale : Tale p) → NestsByLevels p tale }
{}

/// From each phase and stack that fit together a step is there, whatever has arrived.
pub fn never_is_stuck()
    ensures { (p : Timing) → IsListed p → NeverStuck p }
{}

/// Each latch of an event has committed, or waits in its flag, or is under way.
pub fn treats_each_once()
    ensures { (p : Timing) (tale : Tale p) → EachOnce p tale }
{}

/// What opened has committed, but for the event whose window stands open.
pub fn opens_in_turn()
    ensures { (p : Timing) (tale : Tale p) → OpensInTurn p tale }
{}

/// Each open is followed by its commit in time, with no taking between.
pub fn closes_in_time()
    ensures { (p : Timing) (tale : Tale p) → ClosesInTime p tale }
{}

/// The boot ends in time, at rest, and doesn't come again.
pub fn becomes_ready()
    ensures { (p : Timing) (tale : Tale p) → Ready p tale }
{}

/// Past the boot interrupts are on at one of each `off + 1` boundaries.
pub fn interrupts_come_on()
    ensures { (p : Timing) (tale : Tale p) (off : ℕ) → Within p off → ComesOn p tale off }
{}

/// An event is heard at one of them, where no event of its own or a higher level is under way.
pub fn listens_in_time()
    ensures { (p : Timing) (tale : Tale p) (off : ℕ) → Within p off → Listens p tale off }
{}

/// Work opens within 16 steps.
pub fn work_opens_in_time()
    ensures { (p : Timing) (tale : Tale p) → Quick p → WorkOpens p tale }
{}

/// An event opens only after each more urgent one that was latched 16 boundaries before.
pub fn none_overtakes()
    ensures { (p : Timing) (tale : Tale p) → Quick p → NoOvertaking p tale }
{}

/// All have reacted where no source has arrived for long enough.
pub fn all_react_in_time()
    ensures { (p : Timing) (tale : Tale p) (off : ℕ) → IsListed p → Within p off → Settles p tale off }
{}

/// An event waits no longer than its response and what the others cost.
pub fn accounts_for_waiting()
    ensures { (p : Timing) (tale : Tale p) (off : ℕ) → IsListed p → Within p off → Accounted p tale off }
{}

/// From a latch in the boot, no longer after the boot.
pub fn accounts_from_boot()
    ensures { (p : Timing) (tale : Tale p) (off : ℕ) → IsListed p → Within p off → AccountedFromBoot p tale off }
{}

/// An event that is alone commits within its response.
pub fn responds_in_time()
    ensures { (p : Timing) (tale : Tale p) (off : ℕ) → IsListed p → Within p off → Responds p tale off }
{}
