// Runs of the core as code.

ghost use Rattle.std.specs.Prelude.{◌≡◌, map};
ghost use Rattle.preempt_core.specs.Standing.{voided};

/// A run: its event's number, whether another run has committed since it last began, and whether it has committed.
#[derive(Clone, Copy)]
pub(crate) struct Run {
    pub(crate) event: u8,
    pub(crate) void: bool,
    pub(crate) committed: bool,
}

/// Makes each of the runs void.
pub(crate) fn void_all(runs: &mut [Run])
    ensures { runs.new ≡ map voided runs.old }
{
    for run in runs.iter_mut() {
        run.void = true;
    }
}
