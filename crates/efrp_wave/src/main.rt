//! The program `efrp_wave`: the words of its command line, the system's files and standard output, handed to the one call of
//! `wave_tool`, whose status it ends with. What it makes of the words and of a refusal of them, contracts of `command_parts` say;
//! what `main` makes of both is the edge to the real outside.
#![tactic(auto)]

use command_parts::{refusal, texts};
use edge_io::{DiskFiles, OutSink};
use std::env;
use std::process::ExitCode;
use wave_tool::efrp_wave;

fn main(rt: HostRuntime) -> ExitCode {
    let alloc = rt.alloc();
    let words = match env::args(&rt) {
        Ok(arguments) => texts(alloc, arguments),
        Err(error) => Err(error),
    };
    let status = match words {
        Ok(words) => efrp_wave(
            alloc,
            words.as_slice(),
            &mut DiskFiles::new(&rt),
            &mut OutSink::new(&rt),
        ),
        Err(error) => refusal(error),
    };
    ExitCode::from(status)
}
