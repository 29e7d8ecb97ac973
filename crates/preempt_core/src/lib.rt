//! The core of priorities, without time: events that wait, runs that interrupt one another, and lists of steps that are judged
//! by what stands in them.
#![tactic(auto)]

mod laws;
mod priority_core;
mod replays;
mod runs;
mod steps;
mod urgency;

pub use laws::{commits_are_serial, marks_look_back};
pub use priority_core::Core;
pub use replays::{Played, ReplayFault, replay};
pub use steps::{Done, Step};
