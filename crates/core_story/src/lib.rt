//! From the chip to the core of priorities, and from the core to what firmware promises.
//!
//! A story joins a tale of the core to the log of a run, boundary by boundary. A chip part shows a relation between the
//! core and the chip; each run then has a story, and what firmware promises follows from it. The crate has definitions
//! alone, and laws on them as contracts of functions with empty bodies.
#![tactic(auto)]

mod laws;

pub use laws::{images_keep, images_settle, stories_keep, stories_settle};
