// The one public call: it tells where the fault of a source stands.
ghost use Rattle.std.specs.Prelude.{◌≡◌};
ghost use Rattle.std.specs.Option.{option_map};
ghost use Rattle.where_tool.specs.Asking.{words_in};
ghost use Rattle.where_tool.specs.Promises.{Promises, PromisesOf, asked_by};

use crate::verdicts::verdict;
use command_parts::{NO_COMMAND, finish, say};
use edge_io::{Files, Sink};
use frp_tree::Text;
use std::alloc::Global;

/// What is put where the words aren't a source's name and a line.
const USAGE: &str = "usage: efrp_where SRC LINE\n";

/// A source's name, and the line that was put of its fault, without its end.
#[derive(Clone, Copy, Debug)]
pub struct Asking<N> {
    pub source: N,
    pub line: N,
}

// What two words ask for.
fn asking_in<'a>(words: &'a [Text]) -> Option<Asking<&'a Text>>
    ensures { option_map words_in result ≡ asked_by words.now }
{
    match words {
        [source, line] => Some(Asking { source, line }),
        _ => None,
    }
}

// Tells the place of a source's fault, and answers a status.
fn tell<F: Files, S: Sink>(
    alloc: Global,
    source: &Text,
    line: &Text,
    files: &mut F,
    out: &mut S,
) -> u8
    ensures { Promises (record { source = source.now; line = line.now }) (record { files = F.seen files.old; out = S.seen out.old }) (record { files = F.seen files.new; out = S.seen out.new }) result }
{
    match verdict(alloc, source, line, files) {
        Ok(told) => say(alloc, out, told.status, told.bytes.as_slice()),
        Err(halt) => finish(alloc, out, Err(halt)),
    }
}

/// Tells where the fault of a source stands, and answers a status. The words are the source's name and the line that `efrp`
/// put of it, without its end: those of a command line without the program's name. 0: the place was put; 1: the source has
/// another fault, and its line was put; 2: the words are others, and the usage line was put; 3: the file isn't there; 4: it
/// wasn't read; 5: what was to be put wasn't; 6: memory ran out; 8: the source has no fault.
pub fn efrp_where<F: Files, S: Sink>(
    alloc: Global,
    words: &[Text],
    files: &mut F,
    out: &mut S,
) -> u8
    ensures { PromisesOf (asked_by words.now) (record { files = F.seen files.old; out = S.seen out.old }) (record { files = F.seen files.new; out = S.seen out.new }) result }
{
    match asking_in(words) {
        Some(asking) => tell(alloc, asking.source, asking.line, files, out),
        None => say(alloc, out, NO_COMMAND, USAGE.as_bytes()),
    }
}
