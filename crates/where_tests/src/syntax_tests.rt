// Where texts break off, and each limit.

use crate::calls::made;
use crate::rows::{expect_told, is_told};
use std::alloc::{AllocError, Global};

/// Texts that break off at the mark, each with its line and what is told.
const BROKEN: &str = "\
event $@ | refused: byte 6 | no token begins with this byte
let n : u8 = 12$ab; | refused: byte 15 | a blank is missing behind a number
let n : u8 = 1w$2; | refused: byte 15 | a blank is missing behind a number
// a comment\\n\\tlet n : u8 = $#; | refused: byte 27 | no token begins with this byte
event $abcdefghijklmnopqrstuvwxyz012345 = INT priority 1; | refused: big 6 | the name has more than 31 bytes
let n : u16 = $65536w; | refused: big 14 | the number is above 65535
event Tick $TMR1 | refused: unexpected 2 | no program goes on so
event Tick = INT$ | refused: unexpected 4 | no program goes on so
event Tick = INT\\n$ | refused: unexpected 4 | no program goes on so
event Tick = INT // ticks\\r\\n\\r\\n$ | refused: unexpected 4 | no program goes on so
let n : u8 = 1 $) ; | refused: unexpected 6 | no program goes on so
// count ticks\\nevent Tick = INT priority 1;\\nlet n : u8 = init 0 in { Tick => n + $; };\\noutput PORTB = n; | refused: unexpected 20 | no program goes on so
$= | refused: unexpected 0 | no program goes on so
\\n\\n  $2 | refused: unexpected 0 | no program goes on so";

#[test]
fn tells_where_a_text_breaks_off(rt: HostRuntime) {
    expect_told(&rt, BROKEN);
}

// A front, a piece so often, and an end.
fn repeated(
    alloc: Global,
    front: &str,
    piece: &str,
    times: usize,
    end: &str,
) -> Result<String, AllocError> {
    let mut text = String::from_str(alloc, front)?;
    for _ in 0..times {
        text.push_str(piece)?;
    }
    text.push_str(end)?;
    Ok(text)
}

/// Texts at a limit and past it: what stands in front, a piece and how often it stands there, the end with its mark, the line
/// and what is told.
const LIMITS: [(&str, &str, usize, &str, &str, &str); 9] = [
    (
        "let n : u8 = ",
        "(",
        64,
        "$(1",
        "refused: deep 69",
        "a nesting of 65, and 64 is the most",
    ),
    (
        "",
        "event A = INT priority 1;\\n",
        11,
        "$event A",
        "refused: many events",
        "more than 11 events",
    ),
    (
        "",
        "setup TRISB = 0;\\r\\n",
        32,
        "$setup",
        "refused: many setups",
        "more than 32 setups",
    ),
    (
        "",
        "let n : u8 = 1;",
        128,
        "$let n : u8 = 1;",
        "refused: many definitions",
        "more than 128 definitions",
    ),
    (
        "",
        "output PORTB = 1; ",
        5,
        "$output PORTB = 1",
        "refused: many outputs",
        "more than 5 outputs",
    ),
    (
        "let n : u8 = ~1",
        " + 1",
        2047,
        " $+ 1",
        "refused: many nodes",
        "more than 4096 nodes of expressions",
    ),
    (
        "let n : u8 = 1;\\nlet t : u8 = table { 0",
        ", 0",
        255,
        ", $0 };",
        "refused: many entries",
        "more than 256 entries of a table or 2048 of all",
    ),
    (
        "",
        " ",
        65_536,
        "$ ",
        "refused: big 65536",
        "the text has more than 65536 bytes",
    ),
    (
        "",
        "\\n",
        65_536,
        "$ ",
        "refused: big 65536",
        "the text has more than 65536 bytes",
    ),
];

#[test]
fn tells_what_is_past_a_limit(rt: HostRuntime) {
    for (front, piece, times, end, line, message) in LIMITS {
        let row = made(&rt, || repeated(rt.alloc(), front, piece, times, end));
        let is_it = match row {
            Some(row) => is_told(&rt, row.as_str(), line, message),
            None => false,
        };
        assert!(rt; is_it, "{line}");
    }
}

// Eight tables of 256 entries, and the first entry of another.
fn tables(alloc: Global) -> Result<String, AllocError> {
    let table = repeated(alloc, "let t : u8 = table { 0", ", 0", 255, " };\\n")?;
    repeated(alloc, "", table.as_str(), 8, "let t : u8 = table { $0 };")
}

#[test]
fn tells_an_entry_too_many_of_all_tables(rt: HostRuntime) {
    let is_it = match made(&rt, || tables(rt.alloc())) {
        Some(row) => is_told(
            &rt,
            row.as_str(),
            "refused: many entries",
            "more than 256 entries of a table or 2048 of all",
        ),
        None => false,
    };
    assert!(rt; is_it);
}
