//! Operations on single bytes, between the expressions of a program and the instructions of the chip.
//!
//! `specs/` says what an operation means for the cells that it names (`Means`), apart from any code. `run` does it.
#![tactic(auto)]

mod cells;
mod operations;
mod running;
mod values;

pub use operations::{Op, Pair};
pub use running::run;
