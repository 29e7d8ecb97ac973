// Which of the events that wait is taken next.

ghost use Rattle.std.specs.Prelude.{◌≡◌, ◌<◌, ◌≤◌, Option, length, IfSome};
ghost use Rattle.preempt_core.specs.Runs.{more_urgent as better, most_urgent as best_of};
ghost use Rattle.preempt_core.specs.Standing.{latch_of};

/// Of an event and the best before it the one of the higher priority, and the one before among equals.
fn more_urgent(priorities: &[u8], e: u8, best: Option<u8>) -> Option<u8>
    requires event { e < length priorities.now }
    requires before { IfSome best (λ b. b < e) }
    ensures better { result ≡ better priorities.now e best }
    ensures within { IfSome result (λ b. b ≤ e) }
{
    match best {
        Some(b) => {
            if priorities[b as usize] < priorities[e as usize] {
                Some(e)
            } else {
                Some(b)
            }
        }
        None => Some(e),
    }
}

/// Of the events that wait the one of the highest priority, and the first in declaration order among equals.
pub(crate) fn most_urgent(priorities: &[u8], latched: &[bool; 11]) -> Option<u8>
    requires { length priorities.now ≤ 11 }
    ensures best { result ≡ best_of priorities.now (latch_of latched.now) (length priorities.now) }
    ensures within { IfSome result (λ b. b < length priorities.now) }
{
    let mut best: Option<u8> = None;
    for e in 0..priorities.len() {
        if latched[e] {
            best = more_urgent(priorities, e as u8, best);
        }
    }
    best
}
