// What a step reports.

/// Why a step stopped: the word at the program counter is no instruction, or it is SLEEP.
#[derive(Clone, Copy, Debug, PartialEq, Eq)]
pub enum Why {
    UnknownWord,
    Sleep,
}

/// What a step did: it took an interrupt, it ran the instruction `word` at `address`, or it stopped there.
/// Addresses are in words of program memory, 0 to 1FFFh.
#[derive(Clone, Copy, Debug, PartialEq, Eq)]
pub enum Did {
    Took,
    Ran { address: u16, word: u16 },
    Stopped { address: u16, why: Why },
}

/// A byte that an instruction wrote to a port, 0 for PORTA to 4 for PORTE: its whole result.
#[derive(Clone, Copy, Debug, PartialEq, Eq)]
pub struct PortWrite {
    pub port: u8,
    pub byte: u8,
}

/// What a step reports: which arriving sources were latched and which merged, as numbers whose bit i is the
/// source with number i; what it did; the lowest address of the register that its instruction wrote as its
/// destination; and what that put on a port.
#[derive(Clone, Copy, Debug, PartialEq, Eq)]
pub struct Stepped {
    pub latched: u16,
    pub merged: u16,
    pub did: Did,
    pub wrote: Option<u16>,
    pub port: Option<PortWrite>,
}
