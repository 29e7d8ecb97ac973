//! The compiler's middle: from a program that passes the checks to an image of program memory and its map, or to why there is
//! none.
//!
//! `specs/Builds` says what is built of a program (`IsBuilt`), and of which programs nothing is (`IsBuildFault`). The tool stands on
//! this crate.
#![tactic(auto)]

mod build;
mod faults;
mod kinds;
mod making;
mod works;

pub use build::{Built, compile};
pub use faults::BuildFault;
