// A bank that is known or unknown.

/// What is known of the bank that RP1 and RP0 choose: its number, below 4, or nothing.
#[derive(Clone, Copy, Debug, PartialEq, Eq)]
pub enum Bank {
    Known(u8),
    Unknown,
}
