// The words of a command line, and the status of a program that has none.
ghost use Rattle.std.specs.Prelude.{◌≡◌, drop, IfErr, IfOk, map, string_bytes};
ghost use Rattle.std.specs.Vec.Iter.{into_iter_items};
ghost use Rattle.std.specs.IoError.{error_kind};
ghost use Rattle.command_parts.specs.Refusals.{refusal_status};

use crate::says::NO_MEMORY;
use frp_tree::{List, Text};
use std::alloc::Global;
use std::env;
use std::io::{self, ErrorKind};

/// The status where the runtime refused the words for another cause, as words that aren't UTF-8.
const NO_WORDS: u8 = 7;

/// The arguments as texts, without the first, which is the program's name.
pub fn texts(alloc: Global, arguments: env::Args) -> io::Result<List<Text>>
    ensures words { IfOk result (λ words. words ≡ map string_bytes (drop 1 (into_iter_items arguments))) }
    ensures memory { IfErr result (λ error. error_kind error ≡ ErrorKind.OutOfMemory) }
{
    let mut words = List::new(alloc);
    for word in arguments.skip(1) {
        words.push(Text::new(alloc, word.as_str())?)?;
    }
    Ok(words)
}

/// The status that a refusal of the words ends with.
pub fn refusal(error: io::Error) -> u8
    ensures { result ≡ refusal_status (error_kind error) }
{
    match error.kind() {
        ErrorKind::OutOfMemory => NO_MEMORY,
        _ => NO_WORDS,
    }
}
