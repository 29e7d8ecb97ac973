//! Scripts of what comes from outside the chip, and the trace of a firmware image under a script.
//!
//! Contracts see a script's text as its lines' fields: which script it states, and the first line with a fault and its
//! cause. A trace's text is that of the definition's log of the image's run under the script's arrivals, changes of pins
//! and late interrupts, and a sink has taken it whole, up to the chip's stop, or a prefix of it. The tool stands on this
//! crate.
#![tactic(auto)]

mod drafts;
mod entries;
mod lines;
mod marked_addresses;
mod player;
mod reader;
mod scripts;
mod sends;
mod tracer;
mod traces;

pub use lines::end_with_states;
pub use player::{Player, Seen};
pub use reader::read_script;
pub use scripts::{Arrival, Cause, Late, PinChange, Script, ScriptFault};
pub use traces::{TraceFault, trace};
