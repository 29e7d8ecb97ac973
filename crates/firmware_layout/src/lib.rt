//! The layout of firmware: its code put together from its pieces, where they lie, what they may write, and that this is arranged as
//! the step from code to the core of priorities wants it.
#![tactic(auto)]

mod code;
mod laws;

pub use code::Parts;
pub use laws::{
    each_run_stands, is_heard, is_making, layout_arranged, layout_enables, layout_levels,
    layout_places, layout_states, layout_times, layout_writes, runs_lie_apart,
    vector_of_code_stands,
};
