// What is true of every run, and of every program with no inputs, as contracts of functions that do nothing.
ghost use Rattle.frp_tree.specs.Tree.{ProgramTree};
ghost use Rattle.firmware_promises.specs.Laws.{NeedsNoSamples, ReactsToCommits, RunsTakeInTime};

/// In each run of the chip what is heard with its flag set is taken at that boundary or the next, whatever the
/// firmware.
pub fn runs_take_in_time()
    ensures { RunsTakeInTime }
{}

/// The reactions of a program with no inputs are its commits, with no samples.
pub fn reacts_to_commits()
    ensures { (p : ProgramTree) → ReactsToCommits p }
{}

/// The windows of a program with no inputs need no samples.
pub fn needs_no_samples()
    ensures { (p : ProgramTree) → NeedsNoSamples p }
{}
