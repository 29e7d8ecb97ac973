//! Code that runs with interrupts off, where only arrivals come between its steps: what it leads to, and which bytes it puts on
//! ports on the way.
//!
//! A line is an instruction of such code. `specs/Lines.antt` says what each line leaves, and `specs/Stretches.antt` what lines one
//! after another leave. What holds of them is the contract of a function with an empty body.
#![tactic(auto)]

mod laws;
mod lines;

pub use laws::{
    arrives_behind, clears_one_flag, fields_are_in_range, goes_on_after_arrivals,
    jumps_to_its_mark, keeps_flags, line_leaves, lines_stand, may_take_longer, one_after_the_other,
    reads_enables, skips_or_jumps, straight_on, takes_its_own_step, tests_choose, work_is_told,
};
pub use lines::{Line, add_lines};
