// How calls end: lines that aren't the source's, sources without a fault, other words, and failing files and puts.

use crate::calls::{SOURCE, ends, failing, made, unfailing};
use std::alloc::{AllocError, Global};

/// Sources, each with a line that isn't that of its fault, the status, and what is put.
const OTHERS: [(&str, &str, u8, &str); 9] = [
    (
        "event @",
        "refused: byte 7",
        1,
        "b.frp: its fault is another: refused: byte 6\n",
    ),
    (
        "event @",
        "refused: byte 6\n",
        1,
        "b.frp: its fault is another: refused: byte 6\n",
    ),
    (
        "event @",
        "refused: unexpected 1",
        1,
        "b.frp: its fault is another: refused: byte 6\n",
    ),
    (
        "let n : u8 = m;",
        "refused: name n",
        1,
        "b.frp: its fault is another: refused: name m\n",
    ),
    (
        "let n : u8 = 1w;",
        "",
        1,
        "b.frp: its fault is another: refused: type n wanted u8 found u16\n",
    ),
    (
        "event A = INT priority 1; let m : u8 = m;",
        "refused: cycle m A",
        1,
        "b.frp: its fault is another: refused: cycle A m\n",
    ),
    (
        "let n : u8 = m;",
        "refused: long b.frp",
        1,
        "b.frp: its fault is another: refused: name m\n",
    ),
    (
        "let n : u8 = 1;",
        "refused: name m",
        8,
        "b.frp: it has no fault\n",
    ),
    ("", "refused: form", 8, "b.frp: it has no fault\n"),
];

#[test]
fn says_that_a_line_is_not_the_sources(rt: HostRuntime) {
    for (source, line, status, put) in OTHERS {
        let words = [SOURCE, line];
        let call = unfailing(&words, Some(source.as_bytes()), status, put);
        assert!(rt; ends(&rt, &call), "{line}");
    }
}

#[test]
fn explains_its_words(rt: HostRuntime) {
    let words: [&[&str]; 3] = [&[], &[SOURCE], &[SOURCE, "refused: byte 6", "more"]];
    for words in words {
        let source = "event @".as_bytes();
        let call = unfailing(words, Some(source), 2, "usage: efrp_where SRC LINE\n");
        assert!(rt; ends(&rt, &call));
    }
}

#[test]
fn says_what_is_missing(rt: HostRuntime) {
    let words = [SOURCE, "refused: byte 0"];
    let call = unfailing(&words, None, 3, "missing: b.frp\n");
    assert!(rt; ends(&rt, &call));
}

/// The numbers of calls of files and of the sink that fail, the status, and what is put.
const FAILURES: [(&[u32], &[u32], u8, &str); 2] = [
    (&[0], &[], 4, "read failed: b.frp\n"),
    (&[], &[0], 5, ""),
];

#[test]
fn says_what_failed(rt: HostRuntime) {
    for (files, puts, status, put) in FAILURES {
        let words = [SOURCE, "refused: byte 0"];
        let call = failing(&words, Some("@".as_bytes()), files, puts, status, put);
        assert!(rt; ends(&rt, &call));
    }
}

// A file that is a byte too long.
fn too_long(alloc: Global) -> Result<Vec<u8>, AllocError> {
    vec![in alloc; b' '; 1_048_577]
}

#[test]
fn says_that_a_file_is_too_long(rt: HostRuntime) {
    match made(&rt, || too_long(rt.alloc())) {
        None => assert!(rt; false),
        Some(source) => {
            let words = [SOURCE, "refused: long b.frp"];
            let put = "b.frp:1:1: the file has more than 1048576 bytes\n";
            assert!(rt; ends(&rt, &unfailing(&words, Some(source.as_slice()), 0, put)));
            let words = [SOURCE, "refused: big 65536"];
            let put = "b.frp: its fault is another: refused: long b.frp\n";
            assert!(rt; ends(&rt, &unfailing(&words, Some(source.as_slice()), 1, put)));
        }
    }
}
