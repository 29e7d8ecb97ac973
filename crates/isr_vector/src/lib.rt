//! The vector of firmware: the boot, and from the taking of an interrupt to the run of the event that is chosen.
#![tactic(auto)]

mod boot;
mod code;
mod dispatch;
mod laws;
mod urgency;

pub use code::{VectorCode, vector};
pub use laws::{all_are_events, boot_is_short, boot_makes, first_is_best, state_has_bytes};
pub use urgency::by_urgency;
