//! What the pieces of glue have in common: their marks, the bytes that they keep beside the cells, the enables at a level, and
//! lines in a bank that is known.
#![tactic(auto)]

mod heard;
mod kept;
mod laws;
pub mod marks;
mod moves;
mod spread;
mod stretches;

pub use heard::heard_at;
pub use kept::{REDO, SAVED_PCLATH, SAVED_STATUS, frame_byte};
pub use laws::{
    blind_both, changes, chooses, copies, frame_is_no_cell, frame_lies, frames_differ, lowers,
    makes_bit, makes_both, marks_differ, writes,
};
pub use moves::Move;
pub use spread::{Context, Spread};
pub use stretches::Stretch;
