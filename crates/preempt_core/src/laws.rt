// The theorems about lists of steps.

ghost use Rattle.preempt_core.specs.Marks.{MarksLookBack};
ghost use Rattle.preempt_core.specs.Serial.{AlwaysLawful};

/// After each list of allowed steps priorities rise, each latch was treated once, and the state is that of one serial run of
/// the reactions to the events that committed, though each run reacted to what it had read when it last began.
pub fn commits_are_serial()
    ensures { AlwaysLawful }
{}

/// A mark a run says what looking back over the list says: of each step whether it is allowed, what it answers, and which
/// runs are void after it.
pub fn marks_look_back()
    ensures { MarksLookBack }
{}
