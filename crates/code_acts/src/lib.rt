//! Lists of acts: instructions over names of bytes, without an address.
//!
//! A small machine gives a list of acts its meaning (`specs/Acts.antt`). `instructions` makes the code of a list for bytes at
//! any addresses, with the bank settings that it wants. What holds of the code of each list is the contract of a function with
//! an empty body.
#![tactic(auto)]

mod acts;
mod emitting;
mod laws;

pub use acts::{Act, ConstOp, FileOp, Name, Places};
pub use emitting::{Coded, instructions};
pub use laws::{
    ends_anywhere, instructions_fit, leaves, none_set, run_in_parts, run_keeps, run_like,
    skips_well, words_at_most,
};
