//! Firmware's code has words: it can be laid out, and has no more words than the program's bound.
#![tactic(auto)]

mod laws;

pub use laws::{code_can_be_laid, words_are_bounded};
