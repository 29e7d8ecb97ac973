//! The parts of firmware's code: where they lie, what they may write, and what each does on the chip.
//!
//! The crate has definitions, and laws on them as contracts of functions with empty bodies. The code of the vector and of runs is
//! shown to do this, and from this alone follow the steps of the core of priorities.
#![tactic(auto)]

mod laws;

pub use laws::times_fit;
