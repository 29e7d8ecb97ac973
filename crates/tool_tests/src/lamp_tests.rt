// A program of three events on three levels: what its firmware does under scripts is what its model says.

use crate::calls::{HEX, MAP, NO_MEMORY, SOURCE, made, numbers, texts};
use edge_io::{MemFiles, MemSink};
use frp_tool::efrp;
use std::alloc::{AllocError, Global};
use std::str;

/// A lamp with a button, a dimmer and a timer.
const LAMP: &str = "event Tick = TMR1 priority 1;
event Dim = CCP1 priority 2;
event Button = INT priority 3;
setup TRISC = 0;
setup TRISD = 0;
let on : bool = init false in { Button => !on; Tick => on && left > 1w; };
let left : u16 = init 0w in {
  Button => if on then 600w else 0w;
  Tick => if left == 0w then 0w else left - 1w later; };
let level : u8 = init 255 in { Button => 255; Dim => if on then level >> 1 else level; };
let seconds : u8 = u8(left & 0xFFw);
output PORTC = if on then level else 0;
output PORTD = seconds;
";

/// The names of the script and of the events file.
const SCRIPT: &str = "b.script";

const EVENTS: &str = "b.events";

/// Scripts, and the events in the order in which they commit: those that come alone, in their order; of those that come together
/// the more urgent first; and a run that is interrupted behind those that interrupt it.
const CASES: &[(&str, &str)] = &[
    (
        "at 1000 INT\nat 2000 CCP1\nat 3000 TMR1\nat 4000 CCP1\nat 5000 INT\nsteps 6000\n",
        "Button\nDim\nTick\nDim\nButton\n",
    ),
    (
        "at 1000 INT\nat 2000 TMR1 CCP1 INT\nsteps 7000\n",
        "Button\nButton\nDim\nTick\n",
    ),
    (
        "at 1000 INT\nat 2000 TMR1\nat 2030 CCP1\nat 2045 INT\nsteps 7000\n",
        "Button\nButton\nDim\nTick\n",
    ),
    (
        "late always\nat 1000 INT\nat 2000 TMR1\nat 2030 CCP1\nsteps 7000\n",
        "Button\nDim\nTick\n",
    ),
];

// What a call over these files puts, where its status is 0. An `Err` says that memory ran out.
fn put_by(
    alloc: Global,
    files: &mut MemFiles,
    words: &[&str],
) -> Result<Option<Vec<u8>>, AllocError> {
    let words = texts(alloc, words)?;
    let mut out = MemSink::new(alloc, numbers(alloc, &[])?);
    let status = efrp(alloc, words.as_slice(), files, &mut out);
    if status == NO_MEMORY {
        return Err(AllocError);
    }
    if status != 0 {
        return Ok(None);
    }
    let mut put = Vec::new(alloc);
    put.extend_from_slice(out.taken())?;
    Ok(Some(put))
}

// What a line of a trace tells of a port or a commit, without its step.
fn told(line: &str) -> Option<&str> {
    let (_, told) = line.split_once(' ')?;
    if told.starts_with("port ") || told.starts_with("commit ") {
        Some(told)
    } else {
        None
    }
}

// Whether a trace has the lines of a model behind its first one, in order, and no others of ports and commits.
fn shows(trace: &str, model: &str) -> bool {
    let mut prescribed = model.lines();
    let _ = prescribed.next();
    for line in trace.lines() {
        if let Some(told) = told(line) {
            if prescribed.next() != Some(told) {
                return false;
            }
        }
    }
    prescribed.next().is_none()
}

fn text(bytes: &Vec<u8>) -> &str {
    str::from_utf8(bytes.as_slice()).unwrap_or("")
}

// Whether the lamp is compiled, and under this script reacts as its model to these events. An `Err` says that memory ran out.
fn reacts(alloc: Global, script: &str, events: &str) -> Result<bool, AllocError> {
    let mut files = MemFiles::new(alloc, numbers(alloc, &[])?);
    files.place(alloc, SOURCE, LAMP.as_bytes())?;
    files.place(alloc, SCRIPT, script.as_bytes())?;
    files.place(alloc, EVENTS, events.as_bytes())?;
    let compiled = put_by(alloc, &mut files, &["compile", SOURCE, HEX, MAP])?;
    let traced = put_by(alloc, &mut files, &["run", HEX, MAP, SCRIPT])?;
    let modelled = put_by(alloc, &mut files, &["model", SOURCE, EVENTS])?;
    match (compiled, traced, modelled) {
        (Some(_), Some(trace), Some(model)) => Ok(shows(text(&trace), text(&model))),
        _ => Ok(false),
    }
}

#[test]
fn reacts_as_its_model_says(rt: HostRuntime) {
    for (script, events) in CASES {
        let reacted = made(&rt, || reacts(rt.alloc(), script, events));
        assert!(rt; reacted == Some(true), "{script:?}");
    }
}
