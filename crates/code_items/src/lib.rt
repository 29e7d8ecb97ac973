//! Code as items, before it has addresses: instructions, marks, and jumps to marks.
//!
//! `specs/` says how items become lines, and what it means that a program memory has them from a place on (`Stands`), without
//! an address in any item. Proofs about emitted code are about every place where its items stand.
#![tactic(auto)]

mod items;
mod laws;

pub use items::{Code, Item};
pub use laws::{
    each_piece_stands, jump_arrives, mark_lies_within, marks_stand_once, pieces_are_apart,
    short_code_reaches, skip_decides, stands_in_parts, stands_raised,
};
