//! An address in the chip's data memory for each byte that firmware keeps.
//!
//! `specs/` says how many bytes are needed and which address each has. `place` answers where they are too many.
#![tactic(auto)]

mod laws;
mod needs;
mod places;

pub use laws::{addresses_are_general, addresses_differ, general_is_plain};
pub use needs::{Needs, RamFault};
pub use places::{Places, place};
