// Calls of the tool on a source, HEX and MAP in memory, and how they end.

use edge_io::{MemFiles, MemSink};
use frp_tool::efrp;
use frp_tree::{List, Text};
use std::alloc::{AllocError, Global};

/// What stands under a name after a call.
#[derive(Clone, Copy, Debug, PartialEq, Eq)]
pub(crate) enum Found {
    Absent,
    Whole,
    Other,
}

/// How a call ended: its status, and what it left under the names of HEX and MAP.
pub(crate) type Ended = (u8, Found, Found);

/// A call: its words, the source, where it is there, the numbers of the calls of files and of the sink that fail,
/// whole HEX and MAP, empty where they aren't stated, and the line that it is to put, without its end; an empty one where it
/// is to put nothing.
#[derive(Clone, Copy, Debug)]
pub(crate) struct Call<'a> {
    pub words: &'a [&'a str],
    pub source: Option<&'a [u8]>,
    pub files: &'a [u32],
    pub puts: &'a [u32],
    pub hex: &'a str,
    pub map: &'a str,
    pub put: &'a str,
}

/// The status where memory ran out.
pub(crate) const NO_MEMORY: u8 = 6;

/// The names of the files.
pub const SOURCE: &str = "b.frp";

pub const HEX: &str = "b.hex";

pub const MAP: &str = "b.map";

pub(crate) fn numbers(alloc: Global, items: &[u32]) -> Result<List<u32>, AllocError> {
    let mut list = List::new(alloc);
    list.extend_from_slice(items)?;
    Ok(list)
}

pub(crate) fn texts(alloc: Global, words: &[&str]) -> Result<List<Text>, AllocError> {
    let mut list = List::new(alloc);
    for word in words {
        list.push(Text::new(alloc, word)?)?;
    }
    Ok(list)
}

fn left_under(files: &MemFiles, name: &str, whole: &str) -> Found {
    match files.file(name) {
        None => Found::Absent,
        Some(bytes) if bytes == whole.as_bytes() => Found::Whole,
        Some(_) => Found::Other,
    }
}

/// Whether just this text and the end of its last line were put; where it is empty, nothing.
pub(crate) fn is_put(taken: &[u8], text: &str) -> bool {
    match taken.split_last() {
        Some((last, before)) => { *last == b'\n' && !text.is_empty() && before == text.as_bytes() }
        None => text.is_empty(),
    }
}

/// A row of a table: the text before its last bar, without a blank there, and behind it the line that is to be put.
pub(crate) fn parts_of(row: &str) -> (&str, &str) {
    match row.rsplit_once("| ") {
        Some((text, put)) => (text.strip_suffix(' ').unwrap_or(text), put),
        None => (row, ""),
    }
}

/// What is made; made again where memory ran out, which this says on standard output. None where it runs out again.
pub(crate) fn made<T, F: Fn() -> Result<T, AllocError>>(rt: &impl Print, make: F) -> Option<T>
    requires { F.IsAlwaysCallable make }
{
    match make() {
        Ok(it) => Some(it),
        Err(AllocError) => {
            let _ = println!(rt; "memory ran out");
            make().ok()
        }
    }
}

// Makes a call, and tells how it ended and whether just this was put. An `Err` says that memory ran out before it.
fn attempt(alloc: Global, call: &Call<'_>) -> Result<(Ended, bool), AllocError> {
    let words = texts(alloc, call.words)?;
    let mut files = MemFiles::new(alloc, numbers(alloc, call.files)?);
    let mut out = MemSink::new(alloc, numbers(alloc, call.puts)?);
    if let Some(bytes) = call.source {
        files.place(alloc, SOURCE, bytes)?;
    }
    let status = efrp(alloc, words.as_slice(), &mut files, &mut out);
    let ended = (
        status,
        left_under(&files, HEX, call.hex),
        left_under(&files, MAP, call.map),
    );
    Ok((ended, is_put(out.taken(), call.put)))
}

// What is found of a whole file.
fn found_whole(whole: &str) -> Found {
    if whole.is_empty() {
        Found::Other
    } else {
        Found::Whole
    }
}

// What status 6 may leave: nothing, or HEX, or both.
fn may_run_out(call: &Call<'_>, ended: Ended) -> bool {
    let (_, hex, map) = ended;
    if hex == Found::Absent {
        return map == Found::Absent;
    }
    hex == found_whole(call.hex) && (map == Found::Absent || map == found_whole(call.map))
}

/// Whether a call ends so and puts just its line. Where memory ran out, which it does once at most, this says so on
/// standard output, and the call is made again.
pub(crate) fn ends(rt: &(impl AllocGlobal + Print), call: &Call<'_>, want: Ended) -> bool {
    if let Ok((ended, put)) = attempt(rt.alloc(), call) {
        if ended.0 != NO_MEMORY {
            return ended == want && put;
        }
        if !may_run_out(call, ended) {
            return false;
        }
    }
    let _ = println!(rt; "memory ran out");
    attempt(rt.alloc(), call) == Ok((want, true))
}
