//! From what the parts of firmware's code do, and how they are arranged, to the core of priorities; and so to what firmware promises.
//!
//! The crate has definitions, and laws on them as contracts of functions with empty bodies.
#![tactic(auto)]

mod laws;

pub use laws::{
    code_accounts, code_is_simulated, code_is_tied, code_keeps, code_responds, code_settles,
    hears_above, leaves_set_ups, lies_elsewhere, requests_exactly, work_goes_on,
};
