// Calls of `model`: the text of a counter with an input, what is refused, and where a file or the sink fails.

use crate::calls::{NO_MEMORY, SOURCE, is_put, made, numbers, parts_of, texts};
use crate::source_tests::{Short, in_full};
use edge_io::{MemFiles, MemSink};
use frp_tool::efrp;
use std::alloc::{AllocError, Global};

const EVENTS: &str = "b.events";

/// A call of `model`: the two files, where they are there, the numbers of the calls of files and of the sink that fail,
/// and the status and the text that it ends with, without the end of its last line.
#[derive(Clone, Copy, Debug)]
struct Call<'a> {
    source: Option<&'a str>,
    events: Option<&'a str>,
    files: &'a [u32],
    puts: &'a [u32],
    status: u8,
    put: &'a str,
}

fn place(
    alloc: Global,
    files: &mut MemFiles,
    name: &str,
    text: Option<&str>,
) -> Result<(), AllocError> {
    match text {
        Some(text) => files.place(alloc, name, text.as_bytes()),
        None => Ok(()),
    }
}

// Makes a call, and tells its status and whether just its text was put. An `Err` says that memory ran out before it.
fn attempt(alloc: Global, call: &Call<'_>) -> Result<(u8, bool), AllocError> {
    let words = texts(alloc, &["model", SOURCE, EVENTS])?;
    let mut files = MemFiles::new(alloc, numbers(alloc, call.files)?);
    let mut out = MemSink::new(alloc, numbers(alloc, call.puts)?);
    place(alloc, &mut files, SOURCE, call.source)?;
    place(alloc, &mut files, EVENTS, call.events)?;
    let status = efrp(alloc, words.as_slice(), &mut files, &mut out);
    Ok((status, is_put(out.taken(), call.put)))
}

// Whether a call ends so. Where memory ran out, which it does once at most, this says so on standard output, and the call
// is made again.
fn ends(rt: &(impl AllocGlobal + Print), call: &Call<'_>) -> bool {
    if let Ok((status, put)) = attempt(rt.alloc(), call) {
        if status != NO_MEMORY {
            return status == call.status && put;
        }
    }
    let _ = println!(rt; "memory ran out");
    attempt(rt.alloc(), call) == Ok((call.status, true))
}

/// A program that adds what it reads.
const LEVELS: &str = "event Tick = INT priority 1;
event Clear = T0 priority 2;
let level : u8 = input PORTA;
let top : u8 = init 3 in { Tick => top + level; Clear => 0 later; };
let full : bool = init false in { Tick => !full; };
output PORTB = level;
output PORTC = top;
";

// A call with these events that ends so.
fn model<'a>(events: &'a str, status: u8, put: &'a str) -> Call<'a> {
    Call {
        source: Some(LEVELS),
        events: Some(events),
        files: &[],
        puts: &[],
        status,
        put,
    }
}

/// What is put of the initial state, of a tick on port A at 10h, at 0 and at FFh, and of a clearing between them.
const TEXT: &str = "init top=3 full=0
port PORTB 10
port PORTC 13
commit Tick top=19 full=1
port PORTB 00
port PORTC 13
commit Tick top=19 full=0
port PORTB FF
port PORTC 13
commit Clear top=0 full=0
port PORTB FF
port PORTC FF
commit Tick top=255 full=1";

#[test]
fn puts_the_text_of_a_model(rt: HostRuntime) {
    assert!(rt; ends(&rt, &model("", 0, "init top=3 full=0")));
    let events = "Tick level=10\n\nTick\nClear level=fF\nTick level=ff";
    assert!(rt; ends(&rt, &model(events, 0, TEXT)));
}

/// A program that turns a state at each event.
const TURNS: &str = "event Tick = INT priority 1; let on : bool = init false in { Tick => !on; };";

/// The text of its model with 10,000 events.
const TURNED: Short<'_> = Short {
    parts: "init on=0\n`commit Tick on=1\ncommit Tick on=0\n`4999`",
    times: 1,
    rest: "commit Tick on=1\ncommit Tick on=0",
};

// Whether so many events of that program end so.
fn turns_end(rt: &(impl AllocGlobal + Print), times: usize, status: u8, put: &str) -> bool {
    let events = Short {
        parts: "Tick\n",
        times,
        rest: "",
    };
    let Some(text) = made(rt, || in_full(rt.alloc(), events)) else {
        return false;
    };
    let call = Call {
        source: Some(TURNS),
        ..model(text.as_str(), status, put)
    };
    ends(rt, &call)
}

#[test]
fn reads_as_many_events_as_the_limit(rt: HostRuntime) {
    match made(&rt, || in_full(rt.alloc(), TURNED)) {
        Some(text) => assert!(rt; turns_end(&rt, 10_000, 0, text.as_str())),
        None => assert!(rt; false),
    }
}

#[test]
fn tells_that_events_are_too_many(rt: HostRuntime) {
    assert!(rt; turns_end(&rt, 10_001, 1, "refused: events many"));
}

#[test]
fn tells_the_first_unknown_line(rt: HostRuntime) {
    for row in [
        "Tick\n\nTack\nTuck | refused: events 3",
        "Tick level=100 | refused: events 1",
        "Tick top=10 | refused: events 1",
    ] {
        let (events, put) = parts_of(row);
        assert!(rt; ends(&rt, &model(events, 1, put)), "{row}");
    }
}

#[test]
fn tells_a_fault_of_the_source_first(rt: HostRuntime) {
    let call = Call {
        source: Some("let n : u8 = n + true;"),
        ..model("Tack", 1, "refused: type n wanted u8 found bool")
    };
    assert!(rt; ends(&rt, &call));
}

#[test]
fn says_which_file_is_missing(rt: HostRuntime) {
    for (source, put) in [(None, "missing: b.frp"), (Some("@"), "missing: b.events")] {
        let call = Call {
            source,
            events: None,
            ..model("", 3, put)
        };
        assert!(rt; ends(&rt, &call), "{put}");
    }
}

#[test]
fn says_which_call_failed(rt: HostRuntime) {
    let cases: [(&[u32], &[u32], u8, &str); 3] = [
        (&[0], &[], 4, "read failed: b.frp"),
        (&[1], &[], 4, "read failed: b.events"),
        (&[], &[0], 5, ""),
    ];
    for (files, puts, status, put) in cases {
        let call = Call {
            files,
            puts,
            ..model("", status, put)
        };
        assert!(rt; ends(&rt, &call), "{status}: {put}");
    }
}
