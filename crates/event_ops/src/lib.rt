//! What an event does with bytes: the operations of its work, and what is copied and put when it commits.
//!
//! `specs/Works` says what these do (`Works`), apart from any code.
#![tactic(auto)]

mod assigning;
mod drafts;
mod looks;
mod ops;
mod results;

pub use looks::has_no_looks;
pub use ops::event_ops;
pub use results::{Copied, EventOps, Put};
