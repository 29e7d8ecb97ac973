//! What a map reports of a program's firmware: how deep the return stack gets, and in how many steps all has settled.
//!
//! `specs/Reports` says what is reported (`IsReported`), and within what the run of code that is laid out stays (`StaysWithin`). The
//! compiler stands on this crate, and takes both numbers from it alone.
#![tactic(auto)]

mod reports;

pub use reports::{Report, report_of};
