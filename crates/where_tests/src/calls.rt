// Calls of the tool on a source in memory, and how they end.

use edge_io::{MemFiles, MemSink};
use frp_tree::{List, Text};
use std::alloc::{AllocError, Global};
use where_tool::efrp_where;

/// The name of the source.
pub const SOURCE: &str = "b.frp";

/// The status where memory ran out.
const NO_MEMORY: u8 = 6;

/// A call: its words, the source, where it is there, the numbers of the calls of files and of the sink that fail, the status
/// that is due, and what is to be put.
#[derive(Clone, Copy, Debug)]
pub(crate) struct Call<'a> {
    pub words: &'a [&'a str],
    pub source: Option<&'a [u8]>,
    pub files: &'a [u32],
    pub puts: &'a [u32],
    pub status: u8,
    pub put: &'a str,
}

/// A call in which these calls of files and of the sink fail.
pub(crate) fn failing<'a>(
    words: &'a [&'a str],
    source: Option<&'a [u8]>,
    files: &'a [u32],
    puts: &'a [u32],
    status: u8,
    put: &'a str,
) -> Call<'a> {
    Call {
        words,
        source,
        files,
        puts,
        status,
        put,
    }
}

/// A call in which none fails.
pub(crate) fn unfailing<'a>(
    words: &'a [&'a str],
    source: Option<&'a [u8]>,
    status: u8,
    put: &'a str,
) -> Call<'a> {
    failing(words, source, &[], &[], status, put)
}

fn numbers(alloc: Global, items: &[u32]) -> Result<List<u32>, AllocError> {
    let mut list = List::new(alloc);
    list.extend_from_slice(items)?;
    Ok(list)
}

fn texts(alloc: Global, words: &[&str]) -> Result<List<Text>, AllocError> {
    let mut list = List::new(alloc);
    for word in words {
        list.push(Text::new(alloc, word)?)?;
    }
    Ok(list)
}

/// What is made; made again where memory ran out, which this says on standard output. None where it runs out again.
pub(crate) fn made<T, F: Fn() -> Result<T, AllocError>>(rt: &impl Print, make: F) -> Option<T>
    requires { F.IsAlwaysCallable make }
{
    match make() {
        Ok(it) => Some(it),
        Err(AllocError) => {
            let _ = println!(rt; "memory ran out");
            make().ok()
        }
    }
}

// Makes a call, and tells its status and whether just this was put, or what begins so. An `Err` says that memory ran out
// before it.
fn attempt(alloc: Global, call: &Call<'_>) -> Result<(u8, bool), AllocError> {
    let words = texts(alloc, call.words)?;
    let mut files = MemFiles::new(alloc, numbers(alloc, call.files)?);
    let mut out = MemSink::new(alloc, numbers(alloc, call.puts)?);
    if let Some(bytes) = call.source {
        files.place(alloc, SOURCE, bytes)?;
    }
    let status = efrp_where(alloc, words.as_slice(), &mut files, &mut out);
    let put = call.put.as_bytes();
    let is_put = match call.put.strip_suffix("..") {
        Some(front) => out.taken().starts_with(front.as_bytes()),
        None => out.taken() == put,
    };
    Ok((status, is_put))
}

/// Whether a call ends so. What is to be put may end in two dots: then it begins so. Where memory ran out, which it does once
/// at most, this says so on standard output, and the call is made again.
pub(crate) fn ends(rt: &(impl AllocGlobal + Print), call: &Call<'_>) -> bool {
    if let Ok((status, is_put)) = attempt(rt.alloc(), call) {
        if status != NO_MEMORY {
            return status == call.status && is_put;
        }
    }
    let _ = println!(rt; "memory ran out");
    attempt(rt.alloc(), call) == Ok((call.status, true))
}
