// The one public call: it does the command that the words form.
ghost use Rattle.frp_tool.specs.Promises.{Explained, Promises};
ghost use Rattle.frp_tool.specs.Requests.{request_of};

use crate::bigs::big;
use crate::checks::check;
use crate::compiles::compile;
use crate::models::model;
use crate::requests::{Request, request_in};
use crate::runs::run;
use command_parts::{Halt, NO_COMMAND, finish};
use edge_io::{Files, Sink};
use frp_tree::Text;
use std::alloc::Global;

/// What is put where the words form no command.
const USAGE: &str =
    "usage: efrp check SRC / compile SRC HEX MAP / run HEX MAP SCRIPT / model SRC EVENTS / big N HEX MAP\n";

// The work where the words form no command.
fn explain(alloc: Global) -> Result<Option<String>, Halt>
    ensures { Explained result }
{
    Err(Halt::Said {
        status: NO_COMMAND,
        line: String::from_str(alloc, USAGE)?,
    })
}

/// Does the command that the words form, and answers its status: 0 done; 1 refused, and one line that says why was put;
/// 2 the words form no command, and the usage line was put; 3 a file to read isn't there; 4 a read failed;
/// 5 a write or a put failed; 6 memory ran out. The words are those of a command line without the program's name.
pub fn efrp<F: Files, S: Sink>(alloc: Global, words: &[Text], files: &mut F, out: &mut S) -> u8
    ensures { Promises (request_of words.now) (record { files = F.seen files.old; out = S.seen out.old }) (record { files = F.seen files.new; out = S.seen out.new }) result }
{
    let work = match request_in(words) {
        Some(Request::Check { source }) => check(alloc, source, files),
        Some(Request::Compile { source, hex, map }) => compile(alloc, source, hex, map, files),
        Some(Request::Run { hex, map, script }) => run(alloc, hex, map, script, files, out),
        Some(Request::Model { source, events }) => model(alloc, source, events, files),
        Some(Request::Big { number, hex, map }) => big(alloc, number, hex, map, files),
        None => explain(alloc),
    };
    finish(alloc, out, work)
}
