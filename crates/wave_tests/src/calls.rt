// Calls of the tool over the three files in memory, and how they end.

use crate::lamp::{LAMP_HEX, LAMP_MAP, LAMP_SCRIPT};
use edge_io::{MemFiles, MemSink};
use frp_tree::{List, Text};
use std::alloc::{AllocError, Global};
use wave_tool::efrp_wave;

/// The names of the files.
pub const HEX: &str = "b.hex";

pub const MAP: &str = "b.map";

pub const SCRIPT: &str = "b.script";

/// The words that ask for the waves of these.
pub const WORDS: [&str; 3] = [HEX, MAP, SCRIPT];

/// The status where memory ran out.
const NO_MEMORY: u8 = 6;

/// A call: its words, the three files, where they are there, and the numbers of the calls of files and of the sink that
/// fail.
#[derive(Clone, Copy, Debug)]
pub(crate) struct Call<'a> {
    pub words: &'a [&'a str],
    pub hex: Option<&'a [u8]>,
    pub map: Option<&'a [u8]>,
    pub script: Option<&'a [u8]>,
    pub files: &'a [u32],
    pub puts: &'a [u32],
}

/// A call with these words on the lamp's files, of which none fails.
pub(crate) fn lamp<'a>(words: &'a [&'a str]) -> Call<'a> {
    Call {
        words,
        hex: Some(LAMP_HEX.as_bytes()),
        map: Some(LAMP_MAP.as_bytes()),
        script: Some(LAMP_SCRIPT.as_bytes()),
        files: &[],
        puts: &[],
    }
}

fn numbers(alloc: Global, items: &[u32]) -> Result<List<u32>, AllocError> {
    let mut list = List::new(alloc);
    list.extend_from_slice(items)?;
    Ok(list)
}

fn texts(alloc: Global, words: &[&str]) -> Result<List<Text>, AllocError> {
    let mut list = List::new(alloc);
    for word in words {
        list.push(Text::new(alloc, word)?)?;
    }
    Ok(list)
}

fn place(
    alloc: Global,
    files: &mut MemFiles,
    name: &str,
    bytes: Option<&[u8]>,
) -> Result<(), AllocError> {
    match bytes {
        Some(bytes) => files.place(alloc, name, bytes),
        None => Ok(()),
    }
}

// Makes a call, and tells its status and whether just this was put and no file changed. An `Err` says that memory ran out
// before it.
fn attempt(alloc: Global, call: &Call<'_>, put: &str) -> Result<(u8, bool), AllocError> {
    let words = texts(alloc, call.words)?;
    let mut files = MemFiles::new(alloc, numbers(alloc, call.files)?);
    let mut out = MemSink::new(alloc, numbers(alloc, call.puts)?);
    place(alloc, &mut files, HEX, call.hex)?;
    place(alloc, &mut files, MAP, call.map)?;
    place(alloc, &mut files, SCRIPT, call.script)?;
    let status = efrp_wave(alloc, words.as_slice(), &mut files, &mut out);
    let are_kept = files.file(HEX) == call.hex
        && files.file(MAP) == call.map
        && files.file(SCRIPT) == call.script;
    Ok((status, are_kept && out.taken() == put.as_bytes()))
}

/// Whether a call ends with this status, puts just this text, and changes no file. Where memory ran out, which it does once
/// at most, this says so on standard output, and the call is made again.
pub(crate) fn ends(
    rt: &(impl AllocGlobal + Print),
    call: &Call<'_>,
    status: u8,
    put: &str,
) -> bool {
    if let Ok((ended, is_put)) = attempt(rt.alloc(), call, put) {
        if ended != NO_MEMORY {
            return ended == status && is_put;
        }
    }
    let _ = println!(rt; "memory ran out");
    attempt(rt.alloc(), call, put) == Ok((status, true))
}
