// The kinds of runs.

/// How a run treats interrupts. Of several levels `Short` and `Long` are for the highest, `Bottom` for the lowest, and `Middle`
/// for those between; one level alone has `Short` or `Long`.
#[derive(Clone, Copy, Debug, PartialEq, Eq)]
pub enum Kind {
    /// They stay off from the taking to the return.
    Short,
    /// They are on in its work, in which no event is heard.
    Long,
    /// They are on in its work, in which the events above it are heard. Nothing but the ready address is interrupted.
    Bottom,
    /// They are on in its work, in which the events above it are heard. A run of a lower level may be interrupted.
    Middle,
}
