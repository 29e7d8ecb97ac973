//! The waves of a run: its signals after each step, as a value change dump (VCD) of IEEE 1364, which viewers of waves show.
//!
//! Contracts see the text as that of the definition's log of the image's run under a script (`wave_text`): a header, each signal at
//! power-on, and then for each time, in steps, the signals that changed. `wave_tool` stands on this crate.
#![tactic(auto)]

mod changes;
mod headers;
mod signals;
mod waves;

pub use signals::Signal;
pub use waves::{WaveFault, draw};
