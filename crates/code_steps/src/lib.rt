//! What stands at a place of program memory, the steps that code takes by itself, and what may come between them: the ground
//! on which proofs about emitted code stand.
//!
//! The crate has definitions, laws on them as contracts of functions with empty bodies, and the type of a known or unknown
//! bank.
#![tactic(auto)]

mod banks;
mod laws;

pub use banks::Bank;
pub use laws::{
    goes_on_after_others, late_step_is_an_own_step, leaves_other_bytes, own_step_is_a_boundary,
    runs_alone, tests_flags,
};
