//! What an event assigns, in order: first the values that it needs, and then the new states of `later` clauses; and which
//! states it sets.
//!
//! `specs/Plans` says what a plan is (`IsPlan`) and what its assignments give (`PlanGives`), apart from any code.
#![tactic(auto)]

mod laws;
mod planning;
mod plans;

pub use laws::plans_give;
pub use planning::plan;
pub use plans::{Assign, Plan};
