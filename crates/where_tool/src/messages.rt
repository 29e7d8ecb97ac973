// What is told at the place of a fault.
ghost use Rattle.std.specs.Prelude.{◌≡◌, ◌<◌, drop, IfOk, string_bytes};
ghost use Rattle.std.specs.Prelude.{ℕ, List as Items};
ghost use Rattle.where_tool.specs.declared.parts.Part.{Part as AnyPart};
ghost use Rattle.where_tool.specs.Messages.{big_message, byte_message, check_message, cycle_message, is_setup, many_message, syntax_message};

use crate::parts::Part;
use efrp_syntax::{Kind, SyntaxFault};
use efrp_types::CheckFault;
use frp_tree::limits::LONGEST_SOURCE;
use frp_tree::{Text, Ty};
use std::alloc::{AllocError, Global};
use text_parts::is_word_byte;

// What stands from a place on.
fn from_place(text: &[u8], place: u32) -> &[u8]
    ensures { result.now ≡ drop place text.now }
{
    let place = place as usize;
    if place < text.len() {
        &text[place..]
    } else {
        &[]
    }
}

fn byte_message(rest: &[u8]) -> &'static str
    ensures { result.now ≡ byte_message rest.now }
{
    match rest.first() {
        Some(byte) if is_word_byte(*byte) => "a blank is missing behind a number",
        _ => "no token begins with this byte",
    }
}

fn big_message(text: &[u8], rest: &[u8]) -> &'static str
    ensures { result.now ≡ big_message text.now rest.now }
{
    if text.len() > LONGEST_SOURCE {
        return "the text has more than 65536 bytes";
    }
    match rest.first() {
        Some(byte) if byte.is_ascii_digit() => "the number is above 65535",
        _ => "the name has more than 31 bytes",
    }
}

fn many_message(kind: Kind) -> &'static str
    ensures { result.now ≡ many_message kind }
{
    match kind {
        Kind::Events => "more than 11 events",
        Kind::Setups => "more than 32 setups",
        Kind::Definitions => "more than 128 definitions",
        Kind::Outputs => "more than 5 outputs",
        Kind::Nodes => "more than 4096 nodes of expressions",
        Kind::Entries => "more than 256 entries of a table or 2048 of all",
    }
}

/// What is told of a text's fault. Takes no memory.
pub fn syntax_message(text: &[u8], fault: SyntaxFault) -> &'static str
    ensures { result.now ≡ syntax_message text.now fault }
{
    match fault {
        SyntaxFault::BadByte(place) => byte_message(from_place(text, place)),
        SyntaxFault::TooBig(place) => big_message(text, from_place(text, place)),
        SyntaxFault::Unexpected(_) => "no program goes on so",
        SyntaxFault::TooDeep(_) => "a nesting of 65, and 64 is the most",
        SyntaxFault::TooMany(kind) => many_message(kind),
        SyntaxFault::Memory => "",
    }
}

fn is_setup(part: Part) -> bool
    ensures { result ≡ is_setup part }
{
    match part {
        Part::Setup(_) => true,
        _ => false,
    }
}

fn register_message(part: Part) -> &'static str
    ensures { (name : Items ℕ) → result.now ≡ check_message part (CheckFault.BadRegister name) }
{
    if is_setup(part) {
        "no setup may name this register"
    } else {
        "no port has this name"
    }
}

fn literal_message(part: Part) -> &'static str
    ensures { (owner : Items ℕ) → result.now ≡ check_message part (CheckFault.LiteralRange owner) }
{
    if is_setup(part) {
        "the byte of a setup is at most 255"
    } else {
        "a number above 255 needs the suffix w"
    }
}

fn types_message(alloc: Global, wanted: Ty, found: Ty) -> Result<String, AllocError>
    ensures { (part : AnyPart) (owner : Items ℕ) → IfOk result (λ text. string_bytes text ≡ check_message part (CheckFault.TypeOf owner wanted found)) }
{
    let wanted = wanted.name();
    let found = found.name();
    format!(in alloc; "wanted {wanted}, found {found}")
}

/// What is told of a fault of names or types. An `Err` is out of memory, which has no message either.
pub fn check_message(alloc: Global, part: Part, fault: &CheckFault) -> Result<String, AllocError>
    ensures { IfOk result (λ text. string_bytes text ≡ check_message part fault.now) }
{
    match fault {
        CheckFault::Twice(_) => {
            String::from_str(alloc, "an event or a definition before has this name")
        }
        CheckFault::UnknownSource(_) => String::from_str(alloc, "no source has this name"),
        CheckFault::SourceTwice(_) => String::from_str(alloc, "an event before has this source"),
        CheckFault::BadPriority { event: _, n: _ } => {
            String::from_str(alloc, "a priority is 1 to 11")
        }
        CheckFault::BadRegister(_) => String::from_str(alloc, register_message(part)),
        CheckFault::OutputTwice(_) => String::from_str(alloc, "an output before has this port"),
        CheckFault::UnknownEvent(_) => String::from_str(alloc, "no event has this name"),
        CheckFault::ClauseTwice { decl: _, event: _ } => {
            String::from_str(alloc, "a clause before is for this event")
        }
        CheckFault::UnknownName(_) => String::from_str(alloc, "no definition has this name"),
        CheckFault::TableUse(_) => {
            String::from_str(alloc, "a table's name needs an index, and no other has one")
        }
        CheckFault::LiteralRange(_) => String::from_str(alloc, literal_message(part)),
        CheckFault::BadShift(_) => {
            String::from_str(alloc, "a u8 is shifted by at most 7, a u16 by at most 15")
        }
        CheckFault::TypeOf {
            owner: _,
            wanted,
            found,
        } => types_message(alloc, *wanted, *found),
        CheckFault::Memory => Err(AllocError),
    }
}

/// What is told of a definition that depends on itself on this event. An `Err` is out of memory.
pub fn cycle_message(alloc: Global, event: &Text) -> Result<String, AllocError>
    ensures { IfOk result (λ text. string_bytes text ≡ cycle_message event.now) }
{
    let event = event.as_str();
    format!(in alloc; "on {event} this depends on itself")
}
