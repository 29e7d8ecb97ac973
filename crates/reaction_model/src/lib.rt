//! The reaction of a program that passes the checks: its initial state, and the new state and the port values of an
//! event.
#![tactic(auto)]

mod evaluate;
mod lookups;
mod passes;
mod reactions;
mod rules;
mod values;

pub use reactions::{Reaction, State, initial, react};
