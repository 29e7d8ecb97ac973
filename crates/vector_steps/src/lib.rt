//! What the vector of firmware does on the chip: the boot, the ready address, and from a taking to the run that is chosen.
//!
//! Definitions, and a law as the contract of a function with an empty body.
#![tactic(auto)]

mod laws;

pub use laws::vector_does;
