//! A large program for each number, and what arrives in its run, by draws from the number.
//!
//! Contracts see that the tree and the arrivals are those of the definitions in `specs/`. The command `big` of the tool
//! stands on this crate: it prints the program, reads it again, compiles it and runs it.
#![tactic(auto)]

mod arriving;
mod clauses;
mod draws;
mod expressions;
mod laws;
mod programs;

pub use arriving::{OneArrival, arrivals};
pub use laws::{arrivals_rise, large_fits, large_passes, prints_well};
pub use programs::large_program;
