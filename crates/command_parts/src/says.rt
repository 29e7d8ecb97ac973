// The end of each command: its line is put and its status is made.
ghost use Rattle.std.specs.Prelude.{◌≡◌, IfOk, string_bytes};
ghost use Rattle.command_parts.specs.Endings.{Ends, Finishes};
ghost use Rattle.command_parts.specs.Lines.{named_line};

use crate::halts::Halt;
use edge_io::{PutFault, Sink};
use frp_tree::Text;
use std::alloc::{AllocError, Global};

/// Statuses.
pub const DONE: u8 = 0;

pub const REFUSED: u8 = 1;

pub const NO_COMMAND: u8 = 2;

pub const MISSING: u8 = 3;

pub const READ_FAILED: u8 = 4;

pub const OUTSIDE_FAILED: u8 = 5;

pub const NO_MEMORY: u8 = 6;

/// Puts these bytes, and answers the status that was due, or that of the failure to put them.
pub fn say<S: Sink>(alloc: Global, out: &mut S, due: u8, line: &[u8]) -> u8
    ensures { Ends (S.seen out.old) (S.seen out.new) due line.now result }
{
    match out.put(alloc, line) {
        Ok(()) => due,
        Err(PutFault::Failed) => OUTSIDE_FAILED,
        Err(PutFault::Memory) => NO_MEMORY,
    }
}

/// Puts the last line of a command's work, where there is one, and answers its status.
pub fn finish<S: Sink>(alloc: Global, out: &mut S, work: Result<Option<String>, Halt>) -> u8
    ensures { Finishes (S.seen out.old) (S.seen out.new) work result }
{
    match work {
        Ok(Some(line)) => say(alloc, out, DONE, line.as_str().as_bytes()),
        Ok(None) => DONE,
        Err(Halt::Said { status, line }) => say(alloc, out, status, line.as_str().as_bytes()),
        Err(Halt::PutFailed) => OUTSIDE_FAILED,
        Err(Halt::Memory) => NO_MEMORY,
    }
}

/// A line that ends in a name.
pub fn line_with_name(alloc: Global, words: &str, name: &Text) -> Result<String, AllocError>
    ensures { IfOk result (λ line. string_bytes line ≡ named_line words.now name.now) }
{
    let name = name.as_str();
    format!(in alloc; "{words}{name}\n")
}
