//! What commands that read a source share: a file's bytes or why there are none, the lines of a source's faults, and how a
//! call ends. `frp_tool` and `where_tool` stand on it.
#![tactic(auto)]

mod halts;
mod reads;
mod says;
mod source_lines;
mod words;

pub use halts::Halt;
pub use reads::input;
pub use says::{
    DONE, MISSING, NO_COMMAND, NO_MEMORY, OUTSIDE_FAILED, READ_FAILED, REFUSED, finish,
    line_with_name, say,
};
pub use source_lines::{check_line, cycle_line, syntax_line};
pub use words::{refusal, texts};
