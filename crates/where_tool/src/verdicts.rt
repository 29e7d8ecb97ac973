// What a call finds of a source and a fault line.
ghost use Rattle.std.specs.Prelude.{◌≡◌, ◌++◌, ◌↔◌, IfOk, IsTrue, codes, string_bytes};
ghost use Rattle.edge_io.specs.Files.{FilesSeen, KeepsFiles};
ghost use Rattle.command_parts.specs.Endings.{Gives};
ghost use Rattle.command_parts.specs.Lines.{refusal_line};
ghost use Rattle.command_parts.specs.Reads.{IsInput, IsUnread, Unread, unread_line, unread_status};
ghost use Rattle.checked_source.specs.Readings.{Found, Reading as AnyReading};
ghost use Rattle.where_tool.specs.PointParts.{reading_of};
ghost use Rattle.where_tool.specs.Verdicts.{Another, Faultless, Long};
ghost use Rattle.where_tool.specs.VerdictParts.{IsVerdict, OfText, Works};

use crate::points::point_of;
use crate::reports::report;
use checked_source::{SourceFault, read};
use command_parts::{
    DONE, Halt, REFUSED, check_line, cycle_line, input, line_with_name, syntax_line,
};
use edge_io::Files;
use frp_tree::{List, Text};
use std::alloc::{AllocError, Global};

/// The status where the source has no fault.
pub const FAULTLESS: u8 = 8;

/// What is to be put, and the status that is due.
#[derive(Debug, Drop)]
pub struct Told {
    pub status: u8,
    pub bytes: List<u8>,
}

// Whether the given line is this one, but for its end.
fn fits(alloc: Global, given: &Text, line: &str) -> Result<bool, AllocError>
    ensures { IfOk result (λ fits. IsTrue fits ↔ (given.now ++ codes "\n" ≡ line.now)) }
{
    let given = line_with_name(alloc, "", given)?;
    Ok(given.as_str() == line)
}

fn told_with(alloc: Global, status: u8, text: &str) -> Result<Told, AllocError>
    ensures { IfOk result (λ told. told ≡ record { status = status; bytes = text.now }) }
{
    let mut bytes = List::new(alloc);
    bytes.extend_from_slice(text.as_bytes())?;
    Ok(Told { status, bytes })
}

// The source has a fault with this line, and not the given one.
fn another(alloc: Global, source: &Text, given: &Text, line: &str) -> Result<Told, AllocError>
    ensures { IfOk result (λ told. IsVerdict (record { source = source.now; line = given.now }) (Another line.now) told) }
{
    let source = source.as_str();
    let text = format!(in alloc; "{source}: its fault is another: {line}")?;
    told_with(alloc, REFUSED, text.as_str())
}

// The source has no fault.
fn faultless(alloc: Global, source: &Text, given: &Text) -> Result<Told, AllocError>
    ensures { IfOk result (λ told. IsVerdict (record { source = source.now; line = given.now }) Faultless told) }
{
    let source = source.as_str();
    let text = format!(in alloc; "{source}: it has no fault\n")?;
    told_with(alloc, FAULTLESS, text.as_str())
}

// The source is too long, and that was told.
fn long(alloc: Global, source: &Text, given: &Text) -> Result<Told, AllocError>
    ensures { IfOk result (λ told. IsVerdict (record { source = source.now; line = given.now }) Long told) }
{
    let source = source.as_str();
    let text = format!(in alloc; "{source}:1:1: the file has more than 1048576 bytes\n")?;
    told_with(alloc, DONE, text.as_str())
}

// The line of a text's fault. An `Err` is out of memory, which has no line either.
fn fault_line(alloc: Global, fault: &SourceFault) -> Result<String, AllocError>
    ensures { IfOk result (λ line. (reading : AnyReading) × (reading_of fault.now ≡ Some reading) × (string_bytes line ≡ refusal_line reading)) }
{
    match fault {
        SourceFault::Syntax(fault) => syntax_line(alloc, *fault),
        SourceFault::Check(fault) => check_line(alloc, fault),
        SourceFault::Cycle { event, name } => cycle_line(alloc, event, name),
        SourceFault::Memory => Err(AllocError),
    }
}

// What is told of a text that has this fault.
fn of_fault(
    alloc: Global,
    source: &Text,
    given: &Text,
    text: &[u8],
    fault: &SourceFault,
) -> Result<Told, AllocError>
    requires { Found text.now (Err fault.now) }
    ensures { IfOk result (OfText (record { source = source.now; line = given.now }) text.now) }
{
    let line = fault_line(alloc, fault)?;
    let shown = line.as_str();
    let is_it = fits(alloc, given, shown)?;
    if !is_it {
        return another(alloc, source, given, shown);
    }
    let point = point_of(alloc, text, fault)?;
    let bytes = report(alloc, source, text, &point)?;
    Ok(Told {
        status: DONE,
        bytes,
    })
}

// What is told of a text.
fn of_text(alloc: Global, source: &Text, given: &Text, text: &[u8]) -> Result<Told, AllocError>
    ensures { IfOk result (OfText (record { source = source.now; line = given.now }) text.now) }
{
    match read(alloc, text) {
        Ok(_) => faultless(alloc, source, given),
        Err(fault) => of_fault(alloc, source, given, text, &fault),
    }
}

// What is told of a source that wasn't read, with this status and this line.
fn of_unread(
    alloc: Global,
    source: &Text,
    given: &Text,
    status: u8,
    line: String,
) -> Result<Told, Halt>
    ensures { (before after : FilesSeen) (why : Unread) → IsUnread source.now before after why → status ≡ unread_status why → string_bytes line ≡ unread_line source.now why → Works (record { source = source.now; line = given.now }) before after result }
{
    if status != REFUSED {
        return Err(Halt::Said { status, line });
    }
    let shown = line.as_str();
    let is_it = fits(alloc, given, shown)?;
    if is_it {
        let told = long(alloc, source, given)?;
        return Ok(told);
    }
    let told = another(alloc, source, given, shown)?;
    Ok(told)
}

// What is told where the source wasn't read, or memory ran out.
fn of_halt(alloc: Global, source: &Text, given: &Text, halt: Halt) -> Result<Told, Halt>
    ensures { (before after : FilesSeen) → Gives (IsInput source.now before) (IsUnread source.now before after) unread_status (unread_line source.now) (Err halt) → Works (record { source = source.now; line = given.now }) before after result }
{
    match halt {
        Halt::Said { status, line } => of_unread(alloc, source, given, status, line),
        Halt::PutFailed => Err(Halt::PutFailed),
        Halt::Memory => Err(Halt::Memory),
    }
}

// What is told of what a read gave.
fn of_read(
    alloc: Global,
    source: &Text,
    given: &Text,
    read: Result<List<u8>, Halt>,
) -> Result<Told, Halt>
    ensures { (before after : FilesSeen) → Gives (IsInput source.now before) (IsUnread source.now before after) unread_status (unread_line source.now) read → Works (record { source = source.now; line = given.now }) before after result }
{
    match read {
        Ok(text) => {
            let told = of_text(alloc, source, given, text.as_slice())?;
            Ok(told)
        }
        Err(halt) => of_halt(alloc, source, given, halt),
    }
}

/// What is told of the source of this name and the given line, without its end.
pub fn verdict<F: Files>(
    alloc: Global,
    source: &Text,
    given: &Text,
    files: &mut F,
) -> Result<Told, Halt>
    ensures works { Works (record { source = source.now; line = given.now }) (F.seen files.old) (F.seen files.new) result }
    ensures unchanged { KeepsFiles (F.seen files.old) (F.seen files.new) }
{
    let read = input(alloc, source, files);
    of_read(alloc, source, given, read)
}
