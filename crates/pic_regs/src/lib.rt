//! The registers of the PIC16F877 (data sheet DS30292): what each data address means, what a read gives and
//! a write leaves, interrupt flags and requests, and the state at power-on.
//!
//! Contracts see a `Regs` as the definition's registers, by `registers_of`, an address as what it means, by
//! `reg_at`, and a byte as its bits; each call is the definition's, exactly. The chip stands on this crate.
#![tactic(auto)]

mod access;
mod arriving;
pub mod bytes;
mod control_bits;
mod flags;
mod latches;
mod map;
mod masks;
mod places;
mod power;
mod starts;
mod state;

pub use arriving::Arrived;
pub use latches::Latch;
pub use map::{canonical, lowest_address, place_at, place_in};
pub use places::Place;
pub use starts::Start;
pub use state::Regs;
