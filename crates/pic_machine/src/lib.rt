//! The PIC16F877 (data sheet DS30292) as a machine of steps: instructions, interrupts, the return stack, and
//! what a step reports.
//!
//! Contracts see a `Chip` as the definition's chip and program memory, by `chip_of` and `memory_of`, and each
//! call is the definition's, exactly: a step is its `boundary`. Beside the definitions, in `proofs/`, stand
//! computed examples. The promises of the firmware stand on this crate.
#![tactic(auto)]

mod chip;
mod control_arms;
mod cpu;
mod destination;
mod effects;
mod exec;
mod laws;
mod memory;
mod operands;
mod outcomes;
mod register_arms;
mod results;
mod running;
mod stack;
mod steps;
mod turns;

pub use chip::Chip;
pub use laws::{stops_exactly, takes_in_time, takes_where_it_may};
pub use steps::{Did, PortWrite, Stepped, Why};
