// What is kept of a program's events, and what is answered of them.
ghost use Rattle.std.specs.Prelude.{◌≤◌};

use pic_isa::Source;

/// The levels of a program's priorities: 1 to `count`, by rising priority. Level 0 is idle.
#[derive(Debug, Drop)]
pub struct Levels {
    pub(crate) events: u8,
    pub(crate) count: u8,
    pub(crate) priorities: [u16; 11],
    pub(crate) sources: [Source; 11],
    ghost few: { events ≤ 11 },
}

/// The program has so many distinct priorities, more than 8.
#[derive(Clone, Copy, Debug, PartialEq, Eq)]
pub struct TooDeep(pub u8);

/// The bytes of INTCON, PIE1 and PIE2 with the enables of sources alone.
#[derive(Clone, Copy, Debug, PartialEq, Eq)]
pub struct Enables {
    pub intcon: u8,
    pub pie1: u8,
    pub pie2: u8,
}
