//! What a run of firmware is told by three files, a HEX file, a map and a script, or why there is no run.
//!
//! Contracts see the image, the map and the script that the bytes mean, or the first fault with its line and its status. `frp_tool`
//! and `wave_tool` stand on this crate.
#![tactic(auto)]

mod fault_lines;
mod inputs;

pub use fault_lines::stop_line;
pub use inputs::{Inputs, Parts, read_parts};
