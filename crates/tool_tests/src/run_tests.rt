// Calls of `run`: traces, late interrupts, what is refused, missing, too long or damaged, and where a file or the
// sink fails.

use crate::calls::{HEX, MAP, NO_MEMORY, is_put, made, parts_of, texts};
use crate::compile_tests::{COUNTER_HEX, COUNTER_MAP};
use crate::run_calls::{self, Run, end_of, run_ends};
use edge_io::{SureFiles, SureSink};
use frp_tool::efrp;
use std::alloc::{AllocError, Global};
use std::str;

/// Three ticks, at boundaries of even and odd numbers.
const SCRIPT: &str = "at 1000 INT\nat 2001 INT\nat 3000 INT\nsteps 4000\n";

/// What they do.
const TRACE: &str =
    "1000 latch INT\n1000 take\n1007 open Tick\n1010 port PORTB 01\n1010 commit Tick n=1\n\
    2001 latch INT\n2001 take\n2008 open Tick\n2011 port PORTB 02\n2011 commit Tick n=2\n\
    3000 latch INT\n3000 take\n3007 open Tick\n3010 port PORTB 03\n3010 commit Tick n=3\n\
    end 4000 deepest 1 n=3";

/// A HEX file with one word, SLEEP.
const SLEEP_HEX: &str = ":0200000063009B\n:00000001FF\n";

/// A HEX file with one word, which is no instruction.
const UNKNOWN_HEX: &str = ":020000000100FD\n:00000001FF\n";

// The counter's files, with these in place of them where there are any.
fn files<'a>(hex: &'a str, map: &'a str, script: &'a str) -> Run<'a> {
    Run {
        hex: Some(hex.as_bytes()),
        map: Some(map.as_bytes()),
        script: Some(script.as_bytes()),
        files: &[],
        puts: &[],
    }
}

fn counter<'a>(script: &'a str) -> Run<'a> {
    files(COUNTER_HEX, COUNTER_MAP, script)
}

#[test]
fn traces_the_counter(rt: HostRuntime) {
    assert!(rt; run_ends(&rt, &counter(SCRIPT), 0, TRACE));
}

// How many steps later than a line of a trace another comes that tells the same. None where it tells something else.
fn delay(line: &str, other: &str) -> Option<u32> {
    if line == other {
        return Some(0);
    }
    let (step, told) = line.split_once(' ')?;
    let (later, told_later) = other.split_once(' ')?;
    if told != told_later {
        return None;
    }
    let step = step.parse::<u32>().ok()?;
    later.parse::<u32>().ok()?.checked_sub(step)
}

// How many lines of a trace come one step later than the lines of another. None where there are more or fewer lines,
// or one comes earlier or later than that, or tells something else.
fn lines_later(trace: &str, late: &str) -> Option<usize> {
    let mut others = late.lines();
    let mut later = 0usize;
    for line in trace.lines() {
        match delay(line, others.next()?)? {
            0 => {}
            1 => later = later.saturating_add(1),
            _ => return None,
        }
    }
    match others.next() {
        Some(_) => None,
        None => Some(later),
    }
}

// How many lines of the counter's trace come one step later under this script.
fn counter_later(rt: &(impl AllocGlobal + Print), script: &str) -> Option<usize> {
    let ended = end_of(rt, &counter(script))?;
    if ended.status != 0 {
        return None;
    }
    lines_later(TRACE, str::from_utf8(ended.put.as_slice()).ok()?)
}

// Of each late tick the four lines behind its latch come one step later.
#[test]
fn commits_the_same_where_interrupts_come_late(rt: HostRuntime) {
    let cases = [
        (
            "late never\nat 1000 INT\nat 2001 INT\nat 3000 INT\nsteps 4000\n",
            0,
        ),
        (
            "late odd\nat 1000 INT\nat 2001 INT\nat 3000 INT\nsteps 4000\n",
            4,
        ),
        (
            "late always\nat 1000 INT\nat 2001 INT\nat 3000 INT\nsteps 4000\n",
            12,
        ),
    ];
    for (script, later) in cases {
        assert_eq!(rt; counter_later(&rt, script), Some(later), "{script:?}");
    }
}

#[test]
fn traces_from_any_content_of_memory(rt: HostRuntime) {
    let call = counter("fill FF\nsteps 586\n");
    assert!(rt; run_ends(&rt, &call, 0, "end 586 deepest 0 n=0"));
}

#[test]
fn says_which_line_of_the_map_is_faulty(rt: HostRuntime) {
    let call = files(COUNTER_HEX, "efrp map 2\n", "steps 9\n");
    assert!(rt; run_ends(&rt, &call, 1, "refused: map 1"));
}

/// Scripts, each with the line that is told of it.
const FAULTY_SCRIPTS: &str = "\
at 5 RB
steps 9
| refused: script 1 source
--
steps 9

steps 9
| refused: script 3 after
--
step 9
| refused: script 1 line
--
steps 0
| refused: script 1 number
--
at 5 INT INT
steps 9
| refused: script 1 twice
--
at 5 INT
at 5 INT
steps 9
| refused: script 2 rising
--
at 5 INT
| refused: script 2 nosteps
--
at 5 INT
at 9 INT
steps 9
| refused: script 2 past
--
late
steps 9
| refused: script 1 line
--
pin 5 PORTX 00
steps 9
| refused: script 1 port
--
pin 5 PORTB 00
pin 5 PORTB 01
steps 9
| refused: script 2 pintwice";

#[test]
fn says_what_is_wrong_with_the_script(rt: HostRuntime) {
    for row in FAULTY_SCRIPTS.split("\n--\n") {
        let (script, put) = parts_of(row);
        assert!(rt; run_ends(&rt, &counter(script), 1, put), "{row}");
    }
}

/// HEX files, each with the line that is told of it.
const FAULTY_HEX: &str = "\
x
| refused: hex 1 char
--
:00000001
| refused: hex 1 length
--
:00000001FE
| refused: hex 1 sum FE FF
--
:00000006FA
| refused: hex 1 type 06
--
:020000040001F9
| refused: hex 1 range
--
:0200000063009B

:020000006301 9A
| refused: hex 3 char
--
:0200000063009B

:0200000063019A
| refused: hex 3 clash 0001
--

| refused: hex no end
--
:00000001FF
:00000001FF
| refused: hex 2 after end";

#[test]
fn says_what_is_wrong_with_the_hex(rt: HostRuntime) {
    for row in FAULTY_HEX.split("\n--\n") {
        let (hex, put) = parts_of(row);
        let call = files(hex, COUNTER_MAP, "steps 9\n");
        assert!(rt; run_ends(&rt, &call, 1, put), "{row}");
    }
}

#[test]
fn says_where_the_chip_stops(rt: HostRuntime) {
    let sleep = files(SLEEP_HEX, COUNTER_MAP, "steps 9\n");
    assert!(rt; run_ends(&rt, &sleep, 1, "refused: stop 0 0000 sleep"));
    let unknown = files(UNKNOWN_HEX, COUNTER_MAP, "at 0 INT\nsteps 9\n");
    assert!(rt; run_ends(&rt, &unknown, 1, "0 latch INT\nrefused: stop 0 0000 word"));
}

#[test]
fn tests_hex_first_then_the_map_then_the_script(rt: HostRuntime) {
    let cases = [
        ("x\n", "x\n", "refused: hex 1 char"),
        (COUNTER_HEX, "x\n", "refused: map 1"),
        (SLEEP_HEX, COUNTER_MAP, "refused: script 1 line"),
    ];
    for (hex, map, put) in cases {
        assert!(rt; run_ends(&rt, &files(hex, map, "x\n"), 1, put), "{put}");
    }
}

/// A file that a run reads.
#[derive(Clone, Copy, Debug)]
enum Part {
    Hex,
    Map,
    Script,
}

// A run with this in place of one of its files.
fn with<'a>(whole: Run<'a>, part: Part, bytes: Option<&'a [u8]>) -> Run<'a> {
    let mut run = whole;
    match part {
        Part::Hex => run.hex = bytes,
        Part::Map => run.map = bytes,
        Part::Script => run.script = bytes,
    }
    run
}

// The parts, each with what is told of it.
fn each_part(
    hex: &'static str,
    map: &'static str,
    script: &'static str,
) -> [(Part, &'static str); 3] {
    [(Part::Hex, hex), (Part::Map, map), (Part::Script, script)]
}

#[test]
fn says_what_is_missing(rt: HostRuntime) {
    for (part, put) in each_part("missing: b.hex", "missing: b.map", "missing: b.script") {
        let call = with(files("x\n", "x\n", "x\n"), part, None);
        assert!(rt; run_ends(&rt, &call, 3, put), "{put}");
    }
}

#[test]
fn says_which_read_failed(rt: HostRuntime) {
    let cases = [
        (0, "read failed: b.hex"),
        (1, "read failed: b.map"),
        (2, "read failed: b.script"),
    ];
    for (number, put) in cases {
        let call = Run {
            files: &[number],
            ..counter(SCRIPT)
        };
        assert!(rt; run_ends(&rt, &call, 4, put), "{put}");
    }
}

#[test]
fn tells_by_its_status_that_the_put_failed(rt: HostRuntime) {
    for script in [SCRIPT, "steps 0\n"] {
        let call = Run {
            puts: &[0],
            ..counter(script)
        };
        assert!(rt; run_ends(&rt, &call, 5, ""), "{script:?}");
    }
}

// A text without its end from a place on, or with another byte there.
fn copy_with_damage(
    alloc: Global,
    text: &[u8],
    place: usize,
    byte: Option<u8>,
) -> Result<Vec<u8>, AllocError> {
    let mut copy = Vec::new(alloc);
    for (index, old) in text.iter().enumerate() {
        if index != place {
            copy.push(*old)?;
        } else if let Some(new) = byte {
            copy.push(new)?;
        } else {
            return Ok(copy);
        }
    }
    Ok(copy)
}

// Whether a call is done or refused, and changes no file.
fn is_answered(rt: &(impl AllocGlobal + Print), call: &Run<'_>) -> bool {
    match end_of(rt, call) {
        Some(ended) => ended.status < 2,
        None => false,
    }
}

/// A script of a run that ends.
const SHORT_SCRIPT: &str = "fill 55\nat 21 INT TMR1\nsteps 40\n";

fn text_of(part: Part) -> &'static str {
    match part {
        Part::Hex => COUNTER_HEX,
        Part::Map => COUNTER_MAP,
        Part::Script => SHORT_SCRIPT,
    }
}

// Whether this damage to a file is answered. An `Err` says that memory ran out.
fn damage_is_answered(
    rt: &(impl AllocGlobal + Print),
    part: Part,
    place: usize,
    byte: Option<u8>,
) -> Result<bool, AllocError> {
    let bytes = copy_with_damage(rt.alloc(), text_of(part).as_bytes(), place, byte)?;
    Ok(is_answered(
        rt,
        &with(counter(SHORT_SCRIPT), part, Some(bytes.as_slice())),
    ))
}

// Whether a file is answered that is cut at any place, or has this byte there. Where memory ran out a place is tried
// again.
fn answers_damage(rt: &(impl AllocGlobal + Print), part: Part, byte: Option<u8>) -> bool {
    for place in 0..text_of(part).len() {
        if made(rt, || damage_is_answered(rt, part, place, byte)) != Some(true) {
            return false;
        }
    }
    true
}

#[test]
fn answers_cut_files(rt: HostRuntime) {
    for part in [Part::Hex, Part::Map, Part::Script] {
        assert!(rt; answers_damage(&rt, part, None), "{part:?}");
    }
}

#[test]
fn answers_changed_files(rt: HostRuntime) {
    for part in [Part::Hex, Part::Map, Part::Script] {
        assert!(rt; answers_damage(&rt, part, Some(b'0')), "{part:?}");
    }
}

fn blanks(alloc: Global, length: usize) -> Result<Vec<u8>, AllocError> {
    let mut text = Vec::new(alloc);
    text.resize(length, b' ')?;
    Ok(text)
}

// Whether a file in this place is refused that is a byte too long.
fn long_is_refused(rt: &(impl AllocGlobal + Print), part: Part, put: &str) -> bool {
    let Some(text) = made(rt, || blanks(rt.alloc(), 1_048_577)) else {
        return false;
    };
    let bytes = Some(text.as_slice());
    run_ends(rt, &with(counter(SHORT_SCRIPT), part, bytes), 1, put)
}

#[test]
fn says_which_file_is_too_long(rt: HostRuntime) {
    let [hex, map, script] = [
        "refused: long b.hex",
        "refused: long b.map",
        "refused: long b.script",
    ];
    for (part, put) in each_part(hex, map, script) {
        assert!(rt; long_is_refused(&rt, part, put), "{put}");
    }
}

// Whether the counter is traced over files and a sink that never fail. An `Err` says that memory ran out.
fn is_traced_surely(alloc: Global) -> Result<bool, AllocError> {
    let words = texts(alloc, &["run", HEX, MAP, run_calls::SCRIPT])?;
    let mut files = SureFiles::new(alloc);
    files.place(alloc, HEX, COUNTER_HEX.as_bytes())?;
    files.place(alloc, MAP, COUNTER_MAP.as_bytes())?;
    files.place(alloc, run_calls::SCRIPT, SCRIPT.as_bytes())?;
    let mut out = SureSink::new(alloc);
    let status = efrp(alloc, words.as_slice(), &mut files, &mut out);
    if status == NO_MEMORY {
        return Err(AllocError);
    }
    Ok(status == 0 && is_put(out.taken(), TRACE))
}

#[test]
fn traces_over_files_that_never_fail(rt: HostRuntime) {
    let traced = made(&rt, || is_traced_surely(rt.alloc()));
    assert!(rt; traced == Some(true));
}
