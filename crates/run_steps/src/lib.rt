//! What the run of an event does on the chip, from its items where they stand in program memory.
//!
//! Definitions, and a law as the contract of a function with an empty body.
#![tactic(auto)]

mod laws;

pub use laws::run_does;
