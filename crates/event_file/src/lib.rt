//! Events files, and the text of a model.
//!
//! Contracts see an events file's text as the events of a program that its lines state, each with a sample for each
//! input, and as the number of its first unknown line. What is added to a model's text are the lines of its definition.
#![tactic(auto)]

mod fields;
mod lines;
mod model;
mod occurrences;
mod reader;

pub use model::{add_init, add_reaction};
pub use occurrences::{EventsFault, Occurrence};
pub use reader::read_events;
