//! The code of an event's work, from what the event does with bytes, and what its commit moves.
//!
//! `specs/Works` says what the code is (`IsWorkOf`). `specs/States` says where states lie and which state plain bytes hold, and
//! `specs/Moves` what a commit moves. That the code does the event's work on the chip is the contract of a function with an empty body.
#![tactic(auto)]

mod laws;
mod works;

pub use laws::{does_event_work, map_reads_states, works_can_be_coded};
pub use works::{Work, work_of};
