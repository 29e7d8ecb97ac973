// Reading an events file.
ghost use Rattle.std.specs.Prelude.{◌≡◌, ◌+◌, ◌<◌, ◌^◌, ◌∷◌, ◌++◌, [], nat_le, if◌then◌else◌, length, OnOk};
ghost use Rattle.frp_tree.specs.Tree.{program_tree_of};
ghost use Rattle.event_file.specs.Reads.{ReadsEvents};

use crate::lines::occurrence_in;
use crate::occurrences::{EventsFault, Occurrence};
use efrp_types::Typed;
use frp_tree::List;
use std::alloc::{AllocError, Global};
use text_parts::next_line;

/// The greatest number of events of an events file.
const MOST_EVENTS: usize = 10_000;

// Adds an event, unless there is one too many already.
fn keep(events: &mut List<Occurrence>, event: Occurrence) -> Result<(), AllocError>
    ensures { OnOk result (events.new ≡ (if nat_le (length events.old) MOST_EVENTS then events.old ++ event ∷ [] else events.old)) }
{
    if events.len() <= MOST_EVENTS {
        events.push(event)?;
    }
    Ok(())
}

/// The events that a text states, with their samples, in order. Lines end in LF or CR LF, and the last may have no
/// ending. Empty lines say nothing. Each other line is the name of an event of the program, and after it, separated by
/// one or more spaces, any number of fields `INPUT=HH`, in two hexadecimal digits, each for another input of the
/// program. An input that isn't named has 00.
///
/// An `Err` is the first line, counted from 1, that isn't empty and isn't of this form; or, where there is none, that
/// there are more than 10,000 events; or out of memory, which may stand in place of every answer.
pub fn read_events(alloc: Global, t: &Typed, bytes: &[u8]) -> Result<List<Occurrence>, EventsFault>
    requires { length bytes.now + 1 < 2 ^ 32 }
    ensures { ReadsEvents (program_tree_of t.now.program) bytes.now result }
{
    let mut events = List::new(alloc);
    let mut count: u32 = 0;
    let mut rest = bytes;
    while let Some((line, more)) = next_line(rest) {
        count += 1;
        if !line.is_empty() {
            let Some(event) = occurrence_in(alloc, t, line)? else {
                return Err(EventsFault::Unknown(count));
            };
            keep(&mut events, event)?;
        }
        rest = more;
    }
    if events.len() > MOST_EVENTS {
        return Err(EventsFault::TooMany);
    }
    Ok(events)
}
