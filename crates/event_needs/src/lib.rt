//! What an event needs: the definitions that are named in its expressions, and the non-reactive ones whose own expressions
//! it needs.
#![tactic(auto)]

mod lookups;
mod needs;
mod walks;

pub use lookups::{clause_on, event_name};
pub use needs::{marks, named};
