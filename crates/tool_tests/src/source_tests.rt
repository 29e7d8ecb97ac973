// What is told of sources: where a text breaks off, and each limit.

use crate::calls::{Call, Found, ends, made, parts_of};
use crate::check_tests::check;
use crate::compile_tests::compile;
use std::alloc::{AllocError, Global};

/// A text in short: in its parts `PIECE`N` stands for N times the piece, at most twice. They stand so often, and then the rest
/// does.
#[derive(Clone, Copy, Debug)]
pub(crate) struct Short<'a> {
    pub parts: &'a str,
    pub times: usize,
    pub rest: &'a str,
}

// Adds a piece so often; where that is no number a byte that stands in no source.
fn add_pieces(text: &mut String, piece: &str, times: &str) -> Result<(), AllocError> {
    let Ok(times) = times.parse::<usize>() else {
        return text.push('`');
    };
    for _ in 0..times {
        text.push_str(piece)?;
    }
    Ok(())
}

// Adds what comes up to the end of the first `PIECE`N`, and answers what is left; all of it where there is none.
fn add_group<'a>(text: &mut String, parts: &'a str) -> Result<&'a str, AllocError> {
    let Some((front, others)) = parts.split_once('`') else {
        return Ok(parts);
    };
    let Some((piece, others)) = others.split_once('`') else {
        return Ok(parts);
    };
    let Some((times, left)) = others.split_once('`') else {
        return Ok(parts);
    };
    text.push_str(front)?;
    add_pieces(text, piece, times)?;
    Ok(left)
}

fn add_parts(text: &mut String, parts: &str) -> Result<(), AllocError> {
    let left = add_group(text, parts)?;
    let left = add_group(text, left)?;
    text.push_str(left)
}

/// The text in full.
pub(crate) fn in_full(alloc: Global, short: Short<'_>) -> Result<String, AllocError> {
    let mut text = String::new(alloc);
    for _ in 0..short.times {
        add_parts(&mut text, short.parts)?;
    }
    text.push_str(short.rest)?;
    Ok(text)
}

fn ends_with(rt: &(impl AllocGlobal + Print), call: &Call<'_>, status: u8) -> bool {
    ends(rt, call, (status, Found::Absent, Found::Absent))
}

// Whether a check tells this of the source; and a compile too, where it is a refusal.
fn is_told(rt: &(impl AllocGlobal + Print), source: &[u8], put: &str) -> bool {
    if put.starts_with("ok ") {
        return ends_with(rt, &check(Some(source), put), 0);
    }
    ends_with(rt, &check(Some(source), put), 1) && ends_with(rt, &compile(Some(source), put), 1)
}

fn short_is_told(rt: &(impl AllocGlobal + Print), short: Short<'_>, put: &str) -> bool {
    match made(rt, || in_full(rt.alloc(), short)) {
        Some(text) => is_told(rt, text.as_bytes(), put),
        None => false,
    }
}

/// Sources, each with the line that is told of it.
const TOLD: &str = "\
event @ | refused: byte 6
event Tick TMR1 | refused: unexpected 2
event Tick = INT | refused: unexpected 4
event abcdefghijklmnopqrstuvwxyz012345 = INT priority 1; | refused: big 6
let n : u8 = 1 ) ; | refused: unexpected 6
// nothing | ok events 0 definitions 0 outputs 0";

#[test]
fn tells_why_a_source_is_refused(rt: HostRuntime) {
    for row in TOLD.lines() {
        let (source, put) = parts_of(row);
        assert!(rt; is_told(&rt, source.as_bytes(), put), "{row}");
    }
}

/// Parts of sources at a limit and past it, each with the line that is told of it.
const LIMITS: &str = "\
` `65536` | ok events 0 definitions 0 outputs 0
` `65537` | refused: big 65536
let abcdefghijklmnopqrstuvwxyz01234 : u8 = 1; | ok events 0 definitions 1 outputs 0
let abcdefghijklmnopqrstuvwxyz012345 : u8 = 1; | refused: big 4
let n : u16 = 65535w; | ok events 0 definitions 1 outputs 0
let n : u16 = 65536w; | refused: big 14
`event A = INT priority 1;`11` | refused: twice A
`event A = INT priority 1;`12` | refused: many events
`setup TRISB = 0;`32` | ok events 0 definitions 0 outputs 0
`setup TRISB = 0;`33` | refused: many setups
`let n : u8 = 1;`128` | refused: twice n
`let n : u8 = 1;`129` | refused: many definitions
`output PORTB = 1;`5` | refused: output twice PORTB
`output PORTB = 1;`6` | refused: many outputs
let n : u8 = ~1` + 1`2047`; | ok events 0 definitions 1 outputs 0
let n : u8 = ~~1` + 1`2047`; | refused: many nodes
let t : u8 = table { 0`, 0`255` }; | ok events 0 definitions 1 outputs 0
let t : u8 = table { 0`, 0`256` }; | refused: many entries
let n : u8 = `(`64`1`)`64`; | ok events 0 definitions 1 outputs 0
let n : u8 = `(`65`1`)`65`; | refused: deep 69";

#[test]
fn keeps_each_limit(rt: HostRuntime) {
    for row in LIMITS.lines() {
        let (parts, put) = parts_of(row);
        let short = Short {
            parts,
            times: 1,
            rest: "",
        };
        assert!(rt; short_is_told(&rt, short, put), "{row}");
    }
}

#[test]
fn keeps_the_limit_on_entries_of_all_tables(rt: HostRuntime) {
    for (rest, put) in [
        ("", "refused: twice t"),
        ("let t : u8 = table { 0 };", "refused: many entries"),
    ] {
        let short = Short {
            parts: "let t : u8 = table { 0`, 0`255` };",
            times: 8,
            rest,
        };
        assert!(rt; short_is_told(&rt, short, put), "{put}");
    }
}

/// The tokens of a counter, each with a blank behind it.
const TOKENS: &str =
    "event Tick = INT priority 1 ; setup TRISB = 0 ; let n : u8 = init 0 in { Tick => n + 1 ; } ; output PORTB = n ; ";

/// How many of them stand before each item, and what is told of the items before it.
const ITEMS: &[(usize, &str)] = &[
    (0, "ok events 0 definitions 0 outputs 0"),
    (7, "ok events 1 definitions 0 outputs 0"),
    (12, "ok events 1 definitions 0 outputs 0"),
    (29, "ok events 1 definitions 1 outputs 0"),
];

// The text of so many tokens, and what is told of it.
fn cut(alloc: Global, count: usize) -> Result<(Vec<u8>, String), AllocError> {
    let mut text = Vec::new(alloc);
    for token in TOKENS.split_inclusive(' ').take(count) {
        text.extend_from_slice(token.as_bytes())?;
    }
    let put = match ITEMS.iter().find(|(before, _)| *before == count) {
        Some((_, counts)) => String::from_str(alloc, counts)?,
        None => format!(in alloc; "refused: unexpected {count}")?,
    };
    Ok((text, put))
}

fn cut_is_told(rt: &(impl AllocGlobal + Print), count: usize) -> bool {
    match made(rt, || cut(rt.alloc(), count)) {
        Some((text, put)) => is_told(rt, text.as_slice(), put.as_str()),
        None => false,
    }
}

#[test]
fn tells_where_a_counter_was_cut(rt: HostRuntime) {
    for count in 0..34 {
        assert!(rt; cut_is_told(&rt, count), "{count}");
    }
    assert_eq!(rt; TOKENS.split_inclusive(' ').count(), 34);
}
