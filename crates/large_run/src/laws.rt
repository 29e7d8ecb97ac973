// What is true of the run of a large program's firmware, as the contract of a function that does nothing.
ghost use Rattle.std.specs.Prelude.{ℕ};
ghost use Rattle.large_run.specs.Laws.{LargeReacts};

/// In the run of any firmware for a number's program on the number's arrivals each arrival is latched or merged, there are as many
/// commits as latched arrivals, and the states are those of the model over the committed events.
pub fn large_reacts()
    ensures { (n : ℕ) → LargeReacts n }
{}
