//! What firmware promises: names in a map, counts over a log of the chip, and the promises themselves, up to
//! `IsFirmware`.
//!
//! The crate has definitions over a program, the log of a run and a map, and laws on them; they know nothing of how
//! code is laid out. The contracts of `code_story`, `firmware` and `frp_tool` cite them.
#![tactic(auto)]

mod laws;

pub use laws::{needs_no_samples, reacts_to_commits, runs_take_in_time};
