//! The run of an event: its masks, its work with interrupts on or off, its lock, the window in which states and ports are
//! written, and its return.
//!
//! `specs/Plans.antt` says which items a run has (`run_items`), as parts that are lists of deeds. What holds of deeds and of enables
//! is the contract of a function with an empty body.
#![tactic(auto)]

mod frames;
mod kinds;
mod laws;
mod masks;
mod runs;
mod windows;

pub use frames::Frame;
pub use kinds::Kind;
pub use laws::{constants_agree, deeds_make, heard_once, masks_lead, unmasks};
pub use runs::{Run, frame_of, run_of};
