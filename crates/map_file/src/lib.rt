//! The map of a firmware image: which addresses mean which event, state, sampled input and register, and the bounds
//! that the firmware keeps.
//!
//! Contracts see a `Map` as its lists and numbers, and its text as the bytes of a file. `write` gives the one
//! text of a map, and `read` the one map of a text, or its first faulty line. The compiler, the simulator's trace
//! and the firmware's promises stand on it.
#![tactic(auto)]

mod drafting;
mod drafts;
mod entries;
mod faults;
mod fields;
mod laws;
mod line_entries;
mod maps;
mod reader;
mod values;
mod writer;

pub use faults::MapFault;
pub use laws::one_map;
pub use maps::{Map, MapEvent, MapSample, MapState, Range};
pub use reader::read;
pub use writer::write;
