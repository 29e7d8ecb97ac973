// Steps of the core of priorities, and programs played over lists of steps.
ghost use Rattle.std.specs.Prelude.{◌<◌, ◌≤◌, ◌^◌, length};
ghost use Rattle.preempt_core.specs.Replays.{commit_steps};

use crate::helpers::checked;
use causality::Checked;
use frp_tree::{List, Value};
use preempt_core::{Core, Done, Played, ReplayFault, Step, replay};
use std::alloc::Global;
use std::test::Fail;

#[test]
fn each_step_answers(rt: HostRuntime) {
    // Of two events the second is the more urgent; it interrupts the first.
    let steps = [
        (Step::Take, None),
        (Step::Arrive(0), Some(Done::Latched(0))),
        (Step::Arrive(0), Some(Done::Merged(0))),
        (Step::Take, Some(Done::Took(0))),
        (Step::Work, Some(Done::Worked)),
        (Step::Arrive(1), Some(Done::Latched(1))),
        (Step::Take, Some(Done::Took(1))),
        (Step::Resume, None),
        (Step::Commit, Some(Done::Committed(1))),
        (Step::Resume, Some(Done::Resumed)),
        (Step::Commit, None),
        (Step::Redo, Some(Done::Redone(0))),
        (Step::Redo, None),
        (Step::Commit, Some(Done::Committed(0))),
        (Step::Resume, Some(Done::Resumed)),
        (Step::Resume, None),
    ];
    let mut core = Core::new(&[1, 2]);
    for (step, wanted) in steps {
        assert!(rt; core.step(step) == wanted);
    }
}

/// The replay of a program without inputs; None where it has one.
fn replay_without_inputs(
    alloc: Global,
    c: &Checked,
    steps: &[Step],
) -> Option<Result<Played, ReplayFault>>
    requires few { length steps.now < 2 ^ 32 }
    requires commits { commit_steps steps.now ≤ 3 }
{
    if c.typed().inputs() != 0 {
        return None;
    }
    let samples = [List::new(alloc), List::new(alloc), List::new(alloc)];
    Some(replay(alloc, c, steps, &samples))
}

/// A quotient by what a more urgent event makes larger.
const QUOTIENT: &str =
    "event Low = TMR1 priority 1; event High = INT priority 2; let d : u16 = init 3w in { High => d + 2w; }; let q : u16 = init 0w in { Low => 60000w / d; };";

fn is_played(played: &Played, commits: &[u8], values: &[Value], ports: &[u8]) -> bool {
    played.commits.as_slice() == commits
        && played.state.values.as_slice() == values
        && played.ports.as_slice() == ports
}

/// A run of Low that is interrupted, and goes on to its commit as if it were not void.
const WITHOUT_REDO: [Step; 10] = [
    Step::Arrive(0),
    Step::Take,
    Step::Work,
    Step::Arrive(1),
    Step::Take,
    Step::Commit,
    Step::Resume,
    Step::Commit,
    Step::Commit,
    Step::Resume,
];

#[test]
fn begins_again_with_what_a_commit_left(rt: HostRuntime) -> Result<(), Fail> {
    let mut steps = WITHOUT_REDO;
    steps[7] = Step::Redo;
    match replay_without_inputs(rt.alloc(), &checked(rt.alloc(), QUOTIENT)?, &steps) {
        Some(Ok(played)) => {
            assert!(rt; is_played(&played, &[1, 0], &[Value::U16(5), Value::U16(12000)], &[]));
        }
        _ => assert!(rt; false),
    }
    Ok(())
}

#[test]
fn void_run_may_not_commit(rt: HostRuntime) -> Result<(), Fail> {
    match replay_without_inputs(rt.alloc(), &checked(rt.alloc(), QUOTIENT)?, &WITHOUT_REDO) {
        Some(Err(fault)) => assert_eq!(rt; fault, ReplayFault::NotAllowed(7)),
        _ => assert!(rt; false),
    }
    Ok(())
}

/// The replay of two commits of the first event of a program with one input, which reads these bytes; None where it has
/// another number of inputs.
fn replay_of_two(
    alloc: Global,
    c: &Checked,
    first: u8,
    second: u8,
) -> Result<Option<Result<Played, ReplayFault>>, Fail> {
    if c.typed().inputs() != 1 {
        return Ok(None);
    }
    let steps = [
        Step::Arrive(0),
        Step::Take,
        Step::Commit,
        Step::Resume,
        Step::Arrive(0),
        Step::Take,
        Step::Commit,
    ];
    let first = List::from_vec(vec![in alloc; first]?);
    let second = List::from_vec(vec![in alloc; second]?);
    Ok(Some(replay(alloc, c, &steps, &[first, second])))
}

/// A sum of what is read, and the last that was read.
const SUM: &str =
    "event Tick = INT priority 1; let key : u8 = input PORTB; let sum : u8 = init 0 in { Tick => sum + key; }; output PORTC = sum; output PORTD = key;";

#[test]
fn each_commit_has_its_samples(rt: HostRuntime) -> Result<(), Fail> {
    match replay_of_two(rt.alloc(), &checked(rt.alloc(), SUM)?, 7, 200)? {
        Some(Ok(played)) => {
            assert!(rt; is_played(&played, &[0, 0], &[Value::U8(207)], &[7, 7, 207, 200]));
        }
        _ => assert!(rt; false),
    }
    Ok(())
}
