// What an arrival does.

/// What an arrival does: it is latched where its flag was clear, and merged with an earlier one where the
/// flag was set.
#[derive(Clone, Copy, Debug, PartialEq, Eq)]
pub enum Latch {
    Latched,
    Merged,
}
