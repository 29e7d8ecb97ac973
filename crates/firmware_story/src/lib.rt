//! The code of firmware, where each piece does its own and all of it stands in program memory: it is code that keeps what firmware
//! promises.
//!
//! Definitions, and laws as the contracts of functions with empty bodies.
#![tactic(auto)]

mod laws;

pub use laws::{firmware_has_code, run_is_in, vector_is_had};
