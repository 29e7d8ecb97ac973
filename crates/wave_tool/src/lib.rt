//! The call of `efrp_wave`: it reads a HEX file, a map and a script, and puts the run's waves.
//!
//! Contracts see the words, the files before and after, the bytes that were put, and the status. The program `efrp_wave` is a thin
//! `main` over the one public call.
#![tactic(auto)]

mod tool;

pub use tool::{Names, efrp_wave};
