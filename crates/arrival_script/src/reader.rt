// Reading a script.
ghost use Rattle.std.specs.Prelude.{◌+◌, ◌<◌, ◌^◌, length};
ghost use Rattle.arrival_script.specs.Scripts.{Reads};

use crate::drafts::Draft;
use crate::scripts::{Script, ScriptFault};
use std::alloc::Global;
use text_parts::next_line;

/// The script that a text states. Lines end in LF or CR LF, the last may have no ending, and spaces at both ends of a
/// line are dropped. Empty lines and lines that begin with `#` are skipped. Fields are separated by one or more
/// spaces; a number is one to eight decimal digits.
///
/// - `fill` and a byte of two hexadecimal digits, at most once, before every other line; without it the byte is 00.
/// - `late` and `never`, `always` or `odd`, at most once, before every other line but `fill`: when a requested interrupt
///   waits for one more instruction. Without it that is never.
/// - `at`, a boundary and one or more sources' names. The boundaries of these lines rise strictly.
/// - `pin`, a boundary, a port's name and a byte of two hexadecimal digits: from that boundary on the port's pins are the
///   byte. No port stands twice at one boundary. The boundaries of `at` and `pin` lines together never fall.
/// - `steps` and a number from 1 to 10,000,000, above all boundaries. The last line.
///
/// An `Err` is the first line with a fault, counted from 1, and its first cause, exactly where there is one; or out of
/// memory.
pub fn read_script(alloc: Global, bytes: &[u8]) -> Result<Script, ScriptFault>
    requires { length bytes.now + 1 < 2 ^ 32 }
    ensures { Reads bytes.now result }
{
    let mut draft = Draft::new(alloc);
    let mut count = 0;
    let mut rest = bytes;
    while let Some((line, more)) = next_line(rest) {
        count += 1;
        draft.read_line(count, line)?;
        rest = more;
    }
    draft.finish(count)
}
