//! The code of operations on bytes: from an operation, the places of cells and a bank to instructions.
//!
//! `specs/Operations.antt` says what code does an operation (`DoesOp`), wherever it stands and however others interrupt it.
//! `code_of` and `code_in` make it.
#![tactic(auto)]

mod coding;
mod laws;
mod named;

pub use code_items::{Code, Item};
pub use code_steps::Bank;
pub use coding::{Coded, code_in, code_of};
pub use laws::{keeps_bank, none_does, one_more_does, parts_do};
