// Calls of `big`: what they put and leave, twice the same, and where a file or the sink fails.

use crate::calls::{HEX, MAP, NO_MEMORY, numbers, texts};
use edge_io::{MemFiles, MemSink};
use frp_tool::efrp;
use std::alloc::{AllocError, Global};

/// A call of `big`: the digits of its number, and the numbers of the calls of files and of the sink that fail.
#[derive(Clone, Copy, Debug)]
struct Big<'a> {
    number: &'a str,
    files: &'a [u32],
    puts: &'a [u32],
}

/// How a call ended: its status, what was put, and what stands under the names of HEX and MAP, empty where there is no file.
#[derive(Debug, Drop, PartialEq)]
struct Ended {
    status: u8,
    put: Vec<u8>,
    hex: Vec<u8>,
    map: Vec<u8>,
}

fn copied(alloc: Global, bytes: Option<&[u8]>) -> Result<Vec<u8>, AllocError> {
    let mut copy = Vec::new(alloc);
    if let Some(bytes) = bytes {
        copy.extend_from_slice(bytes)?;
    }
    Ok(copy)
}

// Makes a call. An `Err` says that memory ran out before it or after it.
fn attempt(alloc: Global, call: &Big<'_>) -> Result<Ended, AllocError> {
    let words = texts(alloc, &["big", call.number, HEX, MAP])?;
    let mut files = MemFiles::new(alloc, numbers(alloc, call.files)?);
    let mut out = MemSink::new(alloc, numbers(alloc, call.puts)?);
    let status = efrp(alloc, words.as_slice(), &mut files, &mut out);
    Ok(Ended {
        status,
        put: copied(alloc, Some(out.taken()))?,
        hex: copied(alloc, files.file(HEX))?,
        map: copied(alloc, files.file(MAP))?,
    })
}

/// How a call ends. Where memory ran out, which it does once at most, this says so on standard output, and the call is
/// made again.
fn end_of(rt: &(impl AllocGlobal + Print), call: &Big<'_>) -> Option<Ended> {
    if let Ok(ended) = attempt(rt.alloc(), call) {
        if ended.status != NO_MEMORY {
            return Some(ended);
        }
    }
    let _ = println!(rt; "memory ran out");
    attempt(rt.alloc(), call).ok()
}

// A call of which no part fails.
fn sure(number: &str) -> Big<'_> {
    Big {
        number,
        files: &[],
        puts: &[],
    }
}

// The number behind a word of a line, and what stands behind the number.
fn number_behind<'a>(line: &'a str, word: &str) -> Option<(u32, &'a str)> {
    let (digits, rest) = line.strip_prefix(word)?.split_once(' ')?;
    Some((digits.parse::<u32>().ok()?, rest))
}

/// The counts of the first line: latched, merged and commits.
#[derive(Clone, Copy, Debug)]
struct Counts {
    latched: u32,
    merged: u32,
    commits: u32,
}

fn counts_in(line: &str, number: &str) -> Option<Counts> {
    let rest = line.strip_prefix("big ")?.strip_prefix(number)?;
    let (latched, rest) = number_behind(rest, " latched ")?;
    let (merged, rest) = number_behind(rest, "merged ")?;
    let (commits, _) = number_behind(rest, "commits ")?;
    Some(Counts {
        latched,
        merged,
        commits,
    })
}

// Whether a text has two lines, whose counts are of 200 arrivals that have all reacted, and whose states begin with v0.
fn is_account(put: &[u8], number: &str) -> bool {
    let Ok(text) = str::from_utf8(put) else {
        return false;
    };
    let Some((first, second)) = text.split_once('\n') else {
        return false;
    };
    match counts_in(first, number) {
        Some(counts) => {
            counts.merged <= 200
                && counts.latched == 200 - counts.merged
                && counts.commits == counts.latched
                && second.starts_with("end v0=")
                && second.ends_with('\n')
        }
        None => false,
    }
}

// Whether a call ends with 0, with an account, and a second one ends the same.
fn ends_twice_the_same(rt: &(impl AllocGlobal + Print), number: &str) -> bool {
    match (end_of(rt, &sure(number)), end_of(rt, &sure(number))) {
        (Some(one), Some(other)) => {
            one.status == 0 && is_account(one.put.as_slice(), number) && one == other
        }
        _ => false,
    }
}

#[test]
fn runs_the_programs_of_these_numbers(rt: HostRuntime) {
    for number in ["0", "7", "4294967295"] {
        assert!(rt; ends_twice_the_same(&rt, number), "{number}");
    }
}

// The numbers of the call of files that fails, from 0 on, what is put then, and whether HEX is whole.
const FAILURES: &[(u32, &str, bool)] = &[
    (0, "write failed: b.hex\n", false),
    (1, "write failed: b.map\n", true),
];

fn fails_so(rt: &(impl AllocGlobal + Print), number: u32, put: &str, whole: bool) -> bool {
    let failing = Big {
        files: &[number],
        ..sure("7")
    };
    match (end_of(rt, &failing), end_of(rt, &sure("7"))) {
        (Some(ended), Some(done)) => {
            ended.status == 5
                && ended.put.as_slice() == put.as_bytes()
                && (ended.hex == done.hex) == whole
                && ended.map.is_empty()
        }
        _ => false,
    }
}

#[test]
fn says_which_write_failed(rt: HostRuntime) {
    for (number, put, whole) in FAILURES {
        assert!(rt; fails_so(&rt, *number, put, *whole), "{put}");
    }
}

#[test]
fn leaves_both_files_where_the_put_failed(rt: HostRuntime) {
    let failing = Big {
        puts: &[0],
        ..sure("7")
    };
    let left = match (end_of(&rt, &failing), end_of(&rt, &sure("7"))) {
        (Some(ended), Some(done)) => {
            ended.status == 5 && ended.hex == done.hex && ended.map == done.map
        }
        _ => false,
    };
    assert!(rt; left);
}
