// Calls of `run` over the three files in memory, and how they end.

use crate::calls::{HEX, MAP, NO_MEMORY, is_put, numbers, texts};
use edge_io::{MemFiles, MemSink};
use frp_tool::efrp;
use std::alloc::{AllocError, Global};

/// The name of the script.
pub const SCRIPT: &str = "b.script";

/// A call of `run`: the three files, where they are there, and the numbers of the calls of files and of the sink that
/// fail.
#[derive(Clone, Copy, Debug)]
pub(crate) struct Run<'a> {
    pub hex: Option<&'a [u8]>,
    pub map: Option<&'a [u8]>,
    pub script: Option<&'a [u8]>,
    pub files: &'a [u32],
    pub puts: &'a [u32],
}

/// How a call ended: its status and what was put.
#[derive(Debug, Drop)]
pub(crate) struct RunEnded {
    pub status: u8,
    pub put: Vec<u8>,
    pub files_kept: bool,
}

fn place(
    alloc: Global,
    files: &mut MemFiles,
    name: &str,
    bytes: Option<&[u8]>,
) -> Result<(), AllocError> {
    match bytes {
        Some(bytes) => files.place(alloc, name, bytes),
        None => Ok(()),
    }
}

// Makes a call. An `Err` says that memory ran out before it or after it.
fn attempt(alloc: Global, call: &Run<'_>) -> Result<RunEnded, AllocError> {
    let words = texts(alloc, &["run", HEX, MAP, SCRIPT])?;
    let mut files = MemFiles::new(alloc, numbers(alloc, call.files)?);
    let mut out = MemSink::new(alloc, numbers(alloc, call.puts)?);
    place(alloc, &mut files, HEX, call.hex)?;
    place(alloc, &mut files, MAP, call.map)?;
    place(alloc, &mut files, SCRIPT, call.script)?;
    let status = efrp(alloc, words.as_slice(), &mut files, &mut out);
    let mut put = Vec::new(alloc);
    put.extend_from_slice(out.taken())?;
    Ok(RunEnded {
        status,
        put,
        files_kept: files.file(HEX) == call.hex
            && files.file(MAP) == call.map
            && files.file(SCRIPT) == call.script,
    })
}

/// How a call ends. Where memory ran out, which it does once at most, this says so on standard output, and the call is
/// made again. None where a file changed.
pub(crate) fn end_of(rt: &(impl AllocGlobal + Print), call: &Run<'_>) -> Option<RunEnded> {
    if let Ok(ended) = attempt(rt.alloc(), call) {
        if !ended.files_kept {
            return None;
        }
        if ended.status != NO_MEMORY {
            return Some(ended);
        }
    }
    let _ = println!(rt; "memory ran out");
    match attempt(rt.alloc(), call) {
        Ok(ended) if ended.files_kept => Some(ended),
        _ => None,
    }
}

/// Whether a call ends with this status, puts just this text and the end of its last line, and changes no file.
pub(crate) fn run_ends(
    rt: &(impl AllocGlobal + Print),
    call: &Run<'_>,
    status: u8,
    put: &str,
) -> bool {
    match end_of(rt, call) {
        Some(ended) => ended.status == status && is_put(ended.put.as_slice(), put),
        None => false,
    }
}
