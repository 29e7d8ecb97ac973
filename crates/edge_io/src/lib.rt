//! What the program reads, writes and prints, behind two traits.
//!
//! Contracts see the files that are held, as a map from names to bytes, and the bytes that were put,
//! where an object tells them, and counts of faults that never fall: all of it in one record, `seen`. `MemFiles`, `SureFiles`,
//! `MemSink` and `SureSink` tell all; the first of each pair fails at the calls that it is told to, the
//! second never. `DiskFiles` and `OutSink` are the edge to the real outside, and tell only their
//! counts: what the system does with their bytes is trusted. `frp_tool` and `arrival_script` stand on
//! the traits.
#![tactic(auto)]

mod calls;
mod disk_files;
mod faults;
mod mem_files;
mod mem_sink;
mod named_files;
mod out_sink;
mod outside;
mod sure_files;
mod sure_sink;

pub use disk_files::DiskFiles;
pub use faults::{PutFault, ReadFault, WriteFault};
pub use mem_files::MemFiles;
pub use mem_sink::MemSink;
pub use out_sink::OutSink;
pub use outside::{Files, LONGEST_FILE, Sink};
pub use sure_files::SureFiles;
pub use sure_sink::SureSink;
