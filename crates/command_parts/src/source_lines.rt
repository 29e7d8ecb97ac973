// The lines of the faults of a source, as they are put.
ghost use Rattle.std.specs.Prelude.{◌≡◌, ◌≢◌, IfOk, string_bytes};
ghost use Rattle.command_parts.specs.Lines.{kind_word, syntax_line, two_names_line, check_line, cycle_line};

use crate::says::line_with_name;
use efrp_syntax::{Kind, SyntaxFault};
use efrp_types::CheckFault;
use frp_tree::{Text, Ty};
use std::alloc::{AllocError, Global};

// The word for what a program has too many of.
fn kind_word(kind: Kind) -> &'static str
    ensures { result.now ≡ kind_word kind }
{
    match kind {
        Kind::Events => "events",
        Kind::Setups => "setups",
        Kind::Definitions => "definitions",
        Kind::Outputs => "outputs",
        Kind::Nodes => "nodes",
        Kind::Entries => "entries",
    }
}

fn many_line(alloc: Global, kind: Kind) -> Result<String, AllocError>
    ensures { IfOk result (λ text. string_bytes text ≡ syntax_line (SyntaxFault.TooMany kind)) }
{
    let word = kind_word(kind);
    format!(in alloc; "refused: many {word}\n")
}

/// The line of a text's fault. Where memory ran out, which has no line, there is an `Err` too.
pub fn syntax_line(alloc: Global, fault: SyntaxFault) -> Result<String, AllocError>
    ensures { IfOk result (λ line. (fault ≢ SyntaxFault.Memory) × (string_bytes line ≡ syntax_line fault)) }
{
    match fault {
        SyntaxFault::BadByte(place) => format!(in alloc; "refused: byte {place}\n"),
        SyntaxFault::TooBig(place) => format!(in alloc; "refused: big {place}\n"),
        SyntaxFault::Unexpected(tokens) => format!(in alloc; "refused: unexpected {tokens}\n"),
        SyntaxFault::TooDeep(token) => format!(in alloc; "refused: deep {token}\n"),
        SyntaxFault::TooMany(kind) => many_line(alloc, kind),
        SyntaxFault::Memory => Err(AllocError),
    }
}

// A line that ends in two names.
fn two_names_line(alloc: Global, words: &str, one: &Text, two: &Text) -> Result<String, AllocError>
    ensures { IfOk result (λ text. string_bytes text ≡ two_names_line words.now one.now two.now) }
{
    let one = one.as_str();
    let two = two.as_str();
    format!(in alloc; "{words}{one} {two}\n")
}

fn priority_line(alloc: Global, event: &Text, n: u16) -> Result<String, AllocError>
    ensures { IfOk result (λ text. string_bytes text ≡ check_line (CheckFault.BadPriority event.now n)) }
{
    let event = event.as_str();
    format!(in alloc; "refused: priority {event} {n}\n")
}

fn types_line(alloc: Global, owner: &Text, wanted: Ty, found: Ty) -> Result<String, AllocError>
    ensures { IfOk result (λ text. string_bytes text ≡ check_line (CheckFault.TypeOf owner.now wanted found)) }
{
    let owner = owner.as_str();
    let wanted = wanted.name();
    let found = found.name();
    format!(in alloc; "refused: type {owner} wanted {wanted} found {found}\n")
}

/// The line of a fault of names or types. Where memory ran out, which has no line, there is an `Err` too.
pub fn check_line(alloc: Global, fault: &CheckFault) -> Result<String, AllocError>
    ensures { IfOk result (λ line. (fault.now ≢ CheckFault.Memory) × (string_bytes line ≡ check_line fault.now)) }
{
    match fault {
        CheckFault::Twice(name) => line_with_name(alloc, "refused: twice ", name),
        CheckFault::UnknownSource(name) => line_with_name(alloc, "refused: source ", name),
        CheckFault::SourceTwice(name) => line_with_name(alloc, "refused: source twice ", name),
        CheckFault::BadPriority { event, n } => priority_line(alloc, event, *n),
        CheckFault::BadRegister(name) => line_with_name(alloc, "refused: register ", name),
        CheckFault::OutputTwice(name) => line_with_name(alloc, "refused: output twice ", name),
        CheckFault::UnknownEvent(name) => line_with_name(alloc, "refused: event ", name),
        CheckFault::ClauseTwice { decl, event } => {
            two_names_line(alloc, "refused: clause twice ", decl, event)
        }
        CheckFault::UnknownName(name) => line_with_name(alloc, "refused: name ", name),
        CheckFault::TableUse(name) => line_with_name(alloc, "refused: table ", name),
        CheckFault::LiteralRange(name) => line_with_name(alloc, "refused: literal ", name),
        CheckFault::BadShift(name) => line_with_name(alloc, "refused: shift ", name),
        CheckFault::TypeOf {
            owner,
            wanted,
            found,
        } => types_line(alloc, owner, *wanted, *found),
        CheckFault::Memory => Err(AllocError),
    }
}

/// The line of an event on which a definition depends on itself, and the definition.
pub fn cycle_line(alloc: Global, event: &Text, name: &Text) -> Result<String, AllocError>
    ensures { IfOk result (λ line. string_bytes line ≡ cycle_line event.now name.now) }
{
    two_names_line(alloc, "refused: cycle ", event, name)
}
