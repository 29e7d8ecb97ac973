//! The levels of a program's priorities, and the enables of interrupts at each.
//!
//! `specs/` says which level an event has, and which enables are set at a level. `Levels::new` refuses more than eight levels.
#![tactic(auto)]

mod counts;
mod laws;
mod levels;
mod tables;

pub use laws::levels_rise;
pub use tables::{Enables, Levels, TooDeep};
