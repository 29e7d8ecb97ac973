//! The bounds of a program that passes the checks, in numbers: what an event costs, and what its firmware keeps within.
//!
//! `specs/Bounded` says which numbers of `efrp_meaning` they are (`AreCosts`, `AreBounds`).
#![tactic(auto)]

mod bounds;
mod costs;
mod sizes;
mod weights;

pub use bounds::{Bounds, bounds_of};
pub use costs::{Costs, costs_of};
