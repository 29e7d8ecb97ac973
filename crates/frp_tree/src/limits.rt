//! How much of each kind a program may have, and how deep its expressions may nest.

/// The greatest length of a source text, in bytes.
pub const LONGEST_SOURCE: usize = 65_536;

/// The greatest number that a text may spell.
pub const GREATEST_NUMBER: u32 = 65_535;

/// The deepest nesting in an expression.
pub const DEEPEST_NESTING: u32 = 64;

pub const MOST_EVENTS: u32 = 11;

pub const MOST_SETUPS: u32 = 32;

pub const MOST_DEFINITIONS: u32 = 128;

pub const MOST_OUTPUTS: u32 = 5;

/// The nodes of all expressions together.
pub const MOST_NODES: u32 = 4_096;

/// The entries of one table.
pub const MOST_ENTRIES_OF_A_TABLE: u32 = 256;

/// The entries of all tables together.
pub const MOST_ENTRIES: u32 = 2_048;
