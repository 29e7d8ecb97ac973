// Steps of the core, and what each answers.

/// A step: an event arrives; the most urgent latched event is taken; the top run works, begins again, commits, or is left.
#[derive(Clone, Copy, PartialEq, Eq, Debug)]
pub enum Step {
    /// An event arrives, by its number.
    Arrive(u8),
    /// The most urgent latched event interrupts the top run.
    Take,
    /// The top run works on.
    Work,
    /// The top run, which is void, begins again.
    Redo,
    /// The top run commits.
    Commit,
    /// The top run has committed, and the run beneath goes on.
    Resume,
}

/// What a step did, by the event's number.
#[derive(Clone, Copy, PartialEq, Eq, Debug)]
pub enum Done {
    /// The event waits from now on.
    Latched(u8),
    /// The event waited already.
    Merged(u8),
    /// A run of the event began.
    Took(u8),
    /// The top run worked.
    Worked,
    /// The run of the event began again.
    Redone(u8),
    /// The run of the event committed.
    Committed(u8),
    /// The top run was left.
    Resumed,
}
