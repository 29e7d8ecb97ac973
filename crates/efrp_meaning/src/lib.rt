//! What a program means and what it may cost: types, values, values on an event, dependencies, reactions, needs and
//! bounds.
//!
//! The crate has definitions over a program's tree, and laws on them. It knows nothing of the chip.
#![tactic(auto)]

mod laws;

pub use laws::{
    begins_in_a_state, causal_is_ordered, has_port_values, has_typed_values, ignores_samples,
    is_defined_at_depth, leads_round, needs_are_closed, needs_are_least, ordered_is_causal,
    reacts_to_a_state, runs_to_a_state, solves,
};
