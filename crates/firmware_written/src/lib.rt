//! From firmware's code and map, as they are made, to the promise: the image that is written of laid out code, and its map, are
//! firmware for the program, and treat its events in time and in order.
#![tactic(auto)]

mod laws;

pub use laws::written_is_firmware;
