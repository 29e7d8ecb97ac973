// Which token of a program's text a part is.
ghost use Rattle.std.specs.Prelude.{◌≡◌, ◌+◌, ◌-◌, ◌≤◌, length, map, List as Items};
ghost use Rattle.frp_tree.specs.Cells.{Cell, is_of, tokens_of};
ghost use Rattle.frp_tree.specs.declared.marks.TheConstants.{ARROW};
ghost use Rattle.frp_tree.specs.declared.kinds.Kind.TheVariants.{Definitions};
ghost use Rattle.efrp_syntax.specs.Answers.{begun};
ghost use Rattle.efrp_syntax.specs.declared.begun.Begun.{Begun as AnyNote};
ghost use Rattle.where_tool.specs.PartTokens.{arrow_of, before_nodes, fault_token, head_of, in_decl, in_event, in_setup, is_mark, offset_of, place_behind, token_of};

use crate::parts::{Host, Part};
use efrp_syntax::{Begun, Kind, Token};
use efrp_types::CheckFault;
use frp_tree::marks;

fn begins(note: &Begun, kind: Kind) -> bool
    ensures { result ≡ is_of kind note.now.kind }
{
    match note.kind {
        Some(begun) => begun == kind,
        None => false,
    }
}

// The place of the note with this number among those of a kind, from a place on; how many notes there are, where there is
// none.
fn note_behind(notes: &[Begun], kind: Kind, from: usize, number: usize) -> usize
    requires { from ≤ length notes.now }
    ensures is { result ≡ place_behind (λ (n : AnyNote). is_of kind n.kind) from number notes.now }
    ensures within { result ≤ length notes.now }
{
    let mut left = number;
    for i in from..notes.len() {
        if begins(&notes[i], kind) {
            if left == 0 {
                return i;
            }
            left -= 1;
        }
    }
    notes.len()
}

fn is_arrow(token: &Token) -> bool
    ensures { result ≡ is_mark ARROW token.now }
{
    match token {
        Token::Mark(number) => *number == marks::ARROW,
        _ => false,
    }
}

// The same of arrows among tokens.
fn arrow_behind(tokens: &[Token], from: usize, number: usize) -> usize
    requires { from ≤ length tokens.now }
    ensures is { result ≡ place_behind (is_mark ARROW) from number tokens.now }
    ensures within { result ≤ length tokens.now }
{
    let mut left = number;
    for i in from..tokens.len() {
        if is_arrow(&tokens[i]) {
            if left == 0 {
                return i;
            }
            left -= 1;
        }
    }
    tokens.len()
}

// The token that begins the item of this kind and number.
fn head(notes: &[Begun], kind: Kind, number: usize) -> usize
    ensures is { (cells : Items Cell) → notes.now ≡ map begun cells → result ≡ head_of kind number cells }
    ensures within { result ≤ length notes.now }
{
    note_behind(notes, kind, 0, number)
}

// The arrow of a clause.
fn arrow(tokens: &[Token], notes: &[Begun], decl: usize, clause: usize) -> usize
    requires { length tokens.now ≡ length notes.now }
    ensures is { (cells : Items Cell) → tokens.now ≡ tokens_of cells → notes.now ≡ map begun cells → result ≡ arrow_of decl clause cells }
    ensures within { result ≤ length notes.now }
{
    arrow_behind(tokens, head(notes, Kind::Definitions, decl), clause)
}

// A token with no node between it and the first one of an expression.
fn before_nodes(tokens: &[Token], notes: &[Begun], host: Host) -> usize
    requires { length tokens.now ≡ length notes.now }
    ensures is { (cells : Items Cell) → tokens.now ≡ tokens_of cells → notes.now ≡ map begun cells → result ≡ before_nodes host cells }
    ensures within { result ≤ length notes.now }
{
    match host {
        Host::Decl(decl) => head(notes, Kind::Definitions, decl),
        Host::Clause { decl, clause } => arrow(tokens, notes, decl, clause),
        Host::Output(output) => head(notes, Kind::Outputs, output),
    }
}

// The token before one; the first one itself.
fn token_before(token: usize) -> usize
    ensures { result ≡ token - 1 }
{
    token.saturating_sub(1)
}

// The token of a part.
fn token_of(tokens: &[Token], notes: &[Begun], part: Part) -> usize
    requires { length tokens.now ≡ length notes.now }
    ensures is { (cells : Items Cell) → tokens.now ≡ tokens_of cells → notes.now ≡ map begun cells → result ≡ token_of part cells }
    ensures within { result ≤ length notes.now }
{
    match part {
        Part::Event(event) => head(notes, Kind::Events, event),
        Part::Setup(setup) => head(notes, Kind::Setups, setup),
        Part::Decl(decl) => head(notes, Kind::Definitions, decl),
        Part::Output(output) => head(notes, Kind::Outputs, output),
        Part::Clause { decl, clause } => token_before(arrow(tokens, notes, decl, clause)),
        Part::Entry { decl, entry } => {
            let from = head(notes, Kind::Definitions, decl);
            note_behind(notes, Kind::Entries, from, entry)
        }
        Part::Node { host, node } => {
            let from = before_nodes(tokens, notes, host);
            note_behind(notes, Kind::Nodes, from, node)
        }
    }
}

// How many tokens behind the first one of an event, a setup or a definition its fault stands.
fn in_event(fault: &CheckFault) -> usize
    ensures is { result ≡ in_event fault.now }
    ensures small { result ≤ 6 }
{
    match fault {
        CheckFault::UnknownSource(_) | CheckFault::SourceTwice(_) => 3,
        CheckFault::BadPriority { event: _, n: _ } => 5,
        _ => 1,
    }
}

fn in_setup(fault: &CheckFault) -> usize
    ensures is { result ≡ in_setup fault.now }
    ensures small { result ≤ 6 }
{
    match fault {
        CheckFault::LiteralRange(_) => 3,
        _ => 1,
    }
}

fn in_decl(fault: &CheckFault) -> usize
    ensures is { result ≡ in_decl fault.now }
    ensures small { result ≤ 6 }
{
    match fault {
        CheckFault::Twice(_) => 1,
        _ => 6,
    }
}

fn offset_of(part: Part, fault: &CheckFault) -> usize
    ensures is { result ≡ offset_of part fault.now }
    ensures small { result ≤ 6 }
{
    match part {
        Part::Event(_) => in_event(fault),
        Part::Setup(_) => in_setup(fault),
        Part::Decl(_) => in_decl(fault),
        Part::Output(_) => 1,
        Part::Clause { .. } | Part::Entry { .. } | Part::Node { .. } => 0,
    }
}

/// The number of the token at which a part has a fault. The tokens are those of a program, and the notes what each of them
/// begins. Takes no memory.
pub fn fault_token(tokens: &[Token], notes: &[Begun], part: Part, fault: &CheckFault) -> usize
    requires { length tokens.now ≡ length notes.now }
    ensures { (cells : Items Cell) → tokens.now ≡ tokens_of cells → notes.now ≡ map begun cells → result ≡ fault_token part fault.now cells }
{
    token_of(tokens, notes, part) + offset_of(part, fault)
}

/// The number of the token at which a definition has its name. Takes no memory.
pub fn name_token(notes: &[Begun], decl: usize) -> usize
    ensures { (cells : Items Cell) → notes.now ≡ map begun cells → result ≡ head_of Definitions decl cells + 1 }
{
    head(notes, Kind::Definitions, decl) + 1
}
