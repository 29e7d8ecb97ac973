//! Where the fault of a source stands: from the line that `efrp` put of it to a place in the text.
//!
//! The one call takes the name of a source and the line, reads the source again, and puts the place of its fault, the line of the
//! text and a caret under it, if that is the source's fault. The program `efrp_where` is a thin `main` over it. The places
//! are defined over the text's tokens and the program's parts, in the order in which the checks look at them.
#![tactic(auto)]

mod laws;
mod meetings;
mod messages;
mod name_walk;
mod part_tokens;
mod parts;
mod points;
mod reports;
mod spots;
mod tool;
mod type_walk;
mod verdicts;
mod walks;

pub use laws::{one_point, one_report, point_is_within, visits_tell};
pub use tool::efrp_where;
