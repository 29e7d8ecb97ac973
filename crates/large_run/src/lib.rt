//! The run of the image of a large program, and what is counted over it.
//!
//! Contracts see that the counts are those of the defined run (`HasRunWhole`), and that in the run of firmware each arrival is latched or
//! merged, and all that are latched have reacted (`large_reacts`). The command `big` of the tool stands on this crate.
#![tactic(auto)]

mod laws;
mod tallies;

pub use laws::large_reacts;
pub use tallies::{Ran, Tally, large_run};
