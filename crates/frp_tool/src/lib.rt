//! The tool: what each command reads, writes and puts, and the status that it ends with.
//!
//! Contracts see the words of a command, the files before and after, the bytes that were put and the counts of
//! faults. The program `efrp` is a thin `main` over the one public call. Its commands are `check`, `compile`, `run`, `model`
//! and `big`. A command is a case of `Request`, a file of `specs/` that says what is promised of it, and a function that does
//! its work; `finish` puts its last line and makes its status.
#![tactic(auto)]

mod bigs;
mod checks;
mod compiles;
mod fault_lines;
mod models;
mod requests;
mod runs;
mod source;
mod tool;
mod writes;

pub use tool::efrp;
