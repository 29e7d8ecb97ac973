// A map and its parts.
use frp_tree::{List, Text, Ty};
use pic_isa::Source;

/// An event: its source, its priority from 1 to 11, and the addresses, in words and below 2000h, of the first
/// instruction after its passed test (`open`) and of the instruction after which its commit is done (`commit`).
#[derive(Debug, Drop)]
pub struct MapEvent {
    pub name: Text,
    pub source: Source,
    pub priority: u8,
    pub open: u16,
    pub commit: u16,
}

/// A state and the data addresses of its bytes, below 200h. A u16 has its low byte at `low` and its high byte at
/// `high`. A bool or a u8 has one byte, and `high` is `low` there.
#[derive(Debug, Drop)]
pub struct MapState {
    pub name: Text,
    pub ty: Ty,
    pub low: u16,
    pub high: u16,
}

/// An input that an event samples, and the address, in words and below 2000h, of the instruction after which its byte is
/// in W.
#[derive(Debug, Drop)]
pub struct MapSample {
    pub event: Text,
    pub input: Text,
    pub at: u16,
}

/// Data addresses from the first to the last, both included and below 200h.
#[derive(Clone, Copy, Debug, PartialEq, Eq)]
pub struct Range {
    pub from: u16,
    pub to: u16,
}

/// A map. `outputs` are the numbers of ports, 0 to 4, `samples` the inputs that events of the map sample, each pair of
/// an event and an input once, in any number and order, `ready` is a code address in words, `regs` the registers that
/// the firmware may write, as rising ranges that don't touch. The firmware reports: the greatest depth of
/// the return stack, in places (at most 8), the bytes of general RAM outside 70h to 7Fh (at most 352), the words
/// of the image (at most 8192), and the steps in which it settles.
#[derive(Debug, Drop)]
pub struct Map {
    pub events: List<MapEvent>,
    pub states: List<MapState>,
    pub outputs: List<u8>,
    pub samples: List<MapSample>,
    pub ready: u16,
    pub regs: List<Range>,
    pub depth: u8,
    pub ram: u16,
    pub words: u16,
    pub settle: u32,
}
