//! The instruction words of the PIC16F877, its interrupt sources, and the names of its registers and
//! ports (data sheet DS30292).
//!
//! Contracts see the word of an instruction, as a table of 35 rows, the instruction of a word, which is
//! exactly the row that the word is one of, and the tables of names, flags and enables. The chip's
//! registers, the map's text and the compiler stand on this crate.
#![tactic(auto)]

pub mod bits;
mod decoding;
mod instructions;
mod names;
pub mod registers;
mod sources;
mod words;

pub use decoding::{decode, decodes_what_is_encoded};
pub use instructions::{Dest, Instr};
pub use names::{port_name, port_named, register_named};
pub use sources::{BitAt, Source, source_named};
pub use words::encode;
