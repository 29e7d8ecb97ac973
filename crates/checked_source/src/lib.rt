//! From the bytes of a source text to a program that passes the checks, or to its first fault.
#![tactic(auto)]

mod faults;
mod laws;
mod reading;

pub use faults::SourceFault;
pub use laws::passes_exactly;
pub use reading::read;
