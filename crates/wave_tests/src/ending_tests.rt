// How calls end without waves: faults of each file, the chip's stop, other words, missing files, failing reads and puts.

use crate::calls::{Call, WORDS, ends, lamp};

/// A file that the call reads.
#[derive(Clone, Copy, Debug)]
enum Part {
    Hex,
    Map,
    Script,
}

// A call on the lamp's files with this in place of one of them.
fn with(part: Part, bytes: Option<&'static [u8]>) -> Call<'static> {
    let mut call = lamp(&WORDS);
    match part {
        Part::Hex => call.hex = bytes,
        Part::Map => call.map = bytes,
        Part::Script => call.script = bytes,
    }
    call
}

/// What a file may be, and the line that is told of it.
const FAULTY: [(Part, &str, &str); 9] = [
    (Part::Hex, "x\n", "refused: hex 1 char\n"),
    (Part::Hex, "", "refused: hex no end\n"),
    (
        Part::Hex,
        ":00000001FF\n:00000001FF\n",
        "refused: hex 2 after end\n",
    ),
    (Part::Map, "efrp map 2\n", "refused: map 1\n"),
    (Part::Map, "efrp map 1\nevent\n", "refused: map 2\n"),
    (Part::Script, "steps 0\n", "refused: script 1 number\n"),
    (
        Part::Script,
        "at 5 RB\nsteps 9\n",
        "refused: script 1 source\n",
    ),
    (Part::Script, "at 5 INT\n", "refused: script 2 nosteps\n"),
    (
        Part::Script,
        "at 5 INT\nat 9 INT\nsteps 9\n",
        "refused: script 2 past\n",
    ),
];

#[test]
fn says_what_is_wrong_with_a_file(rt: HostRuntime) {
    for (part, text, put) in FAULTY {
        assert!(rt;
            ends(&rt, &with(part, Some(text.as_bytes())), 1, put),
            "{put}"
        );
    }
}

// Of two faulty files the first is told.
#[test]
fn tests_hex_first_then_the_map_then_the_script(rt: HostRuntime) {
    let mut call = with(Part::Script, Some("x\n".as_bytes()));
    assert!(rt; ends(&rt, &call, 1, "refused: script 1 line\n"));
    call.map = Some("x\n".as_bytes());
    assert!(rt; ends(&rt, &call, 1, "refused: map 1\n"));
    call.hex = Some("x\n".as_bytes());
    assert!(rt; ends(&rt, &call, 1, "refused: hex 1 char\n"));
}

/// A HEX file with one word, SLEEP.
const SLEEP_HEX: &str = ":0200000063009B\n:00000001FF\n";

/// A HEX file with one word, which is no instruction.
const UNKNOWN_HEX: &str = ":020000000100FD\n:00000001FF\n";

// No waves of the steps before stand before the line.
#[test]
fn says_where_the_chip_stops(rt: HostRuntime) {
    let cases = [
        (SLEEP_HEX, "refused: stop 0 0000 sleep\n"),
        (UNKNOWN_HEX, "refused: stop 0 0000 word\n"),
    ];
    for (hex, put) in cases {
        assert!(rt;
            ends(&rt, &with(Part::Hex, Some(hex.as_bytes())), 1, put),
            "{put}"
        );
    }
}

#[test]
fn explains_its_words(rt: HostRuntime) {
    let words: [&[&str]; 4] = [
        &[],
        &["b.hex", "b.map"],
        &["b.hex", "b.map", "b.script", "more"],
        &["run", "b.hex", "b.map", "b.script"],
    ];
    for words in words {
        assert!(rt; ends(&rt, &lamp(words), 2, "usage: efrp_wave HEX MAP SCRIPT\n"));
    }
}

#[test]
fn says_what_is_missing(rt: HostRuntime) {
    let cases = [
        (Part::Hex, "missing: b.hex\n"),
        (Part::Map, "missing: b.map\n"),
        (Part::Script, "missing: b.script\n"),
    ];
    for (part, put) in cases {
        assert!(rt; ends(&rt, &with(part, None), 3, put), "{put}");
    }
}

#[test]
fn says_which_read_failed(rt: HostRuntime) {
    let cases: [(&[u32], &str); 3] = [
        (&[0], "read failed: b.hex\n"),
        (&[1], "read failed: b.map\n"),
        (&[2], "read failed: b.script\n"),
    ];
    for (files, put) in cases {
        let call = Call {
            files,
            ..lamp(&WORDS)
        };
        assert!(rt; ends(&rt, &call, 4, put), "{put}");
    }
}

// Also where a fault's line, and no waves, were to be put.
#[test]
fn tells_by_its_status_that_the_put_failed(rt: HostRuntime) {
    for call in [lamp(&WORDS), with(Part::Script, Some("x\n".as_bytes()))] {
        let failing = Call { puts: &[0], ..call };
        assert!(rt; ends(&rt, &failing, 5, ""));
    }
}
