// The place of a text's fault, and what is told there.
ghost use Rattle.std.specs.Prelude.{◌≡◌, ℕ, List as Items, IfOk, IfSome, position};
ghost use Rattle.std.specs.Str.{bytes_eq};
ghost use Rattle.frp_tree.specs.declared.syntax.Decl.{Decl as AnyDecl};
ghost use Rattle.frp_tree.specs.declared.kinds.Kind.{Kind as AnyKind};
ghost use Rattle.frp_tree.specs.declared.tokens.Token.{Token as AnyToken};
ghost use Rattle.frp_tree.specs.Grammar.{Spells};
ghost use Rattle.frp_tree.specs.Tokens.{HasTokens};
ghost use Rattle.frp_tree.specs.Tree.{ProgramTree, program_tree_of};
ghost use Rattle.efrp_syntax.specs.Parsed.{HasFault};
ghost use Rattle.efrp_syntax.specs.Places.{IsTokenPlace};
ghost use Rattle.efrp_types.specs.Answers.{IsFirst};
ghost use Rattle.efrp_types.specs.Laws.{IsWellFormed};
ghost use Rattle.efrp_types.specs.Numbers.{decl_number};
ghost use Rattle.causality.specs.Orders.{IsFirstCycle};
ghost use Rattle.checked_source.specs.Readings.{Cyclic, Faulty, Found, Misused, SpellsSuch, check_faults};
ghost use Rattle.where_tool.specs.Points.{SyntaxPlace};
ghost use Rattle.where_tool.specs.PointParts.{Marks, PointsFor, reading_of};
ghost use Rattle.where_tool.specs.Visits.{check_visits, first_part};

use crate::messages::{check_message, cycle_message, syntax_message};
use crate::part_tokens::{fault_token, name_token};
use crate::parts::{Halted, Part};
use crate::walks::walk;
use checked_source::SourceFault;
use efrp_syntax::{Notes, SyntaxFault, Token, lex, notes_of, parse, place_of_many, token_place};
use efrp_types::{CheckFault, spelled_is_well_formed};
use frp_tree::{Decl, List, Program, Text};
use std::alloc::{AllocError, Global};

/// A place in a text, in bytes from 0, and what is told there.
#[derive(Debug, Drop)]
pub struct Point {
    pub place: usize,
    pub message: String,
}

/// The tokens of a text that spells a program, and what each of them begins.
#[derive(Debug, Drop)]
pub struct Marked {
    pub tokens: List<Token>,
    pub notes: Notes,
}

// A fault that can only be out of memory, as such.
fn out_of_memory(fault: SyntaxFault) -> AllocError
    requires { fault ≡ SyntaxFault.Memory }
{
    match fault {
        SyntaxFault::Memory => AllocError,
        _ => unreachable!(),
    }
}

// The first byte of a token of a text that has tokens; its end, where it has no more.
fn byte_of(alloc: Global, text: &[u8], n: usize) -> Result<usize, AllocError>
    requires { (tokens : Items AnyToken) × HasTokens text.now tokens }
    ensures { IfOk result (λ place. IsTokenPlace text.now n place) }
{
    match token_place(alloc, text, n) {
        Ok(place) => Ok(place),
        Err(fault) => Err(out_of_memory(fault)),
    }
}

// The tokens of a text that has some.
fn tokens_of(alloc: Global, text: &[u8]) -> Result<List<Token>, AllocError>
    requires { (tokens : Items AnyToken) × HasTokens text.now tokens }
    ensures { IfOk result (λ tokens. HasTokens text.now tokens) }
{
    match lex(alloc, text) {
        Ok(tokens) => Ok(tokens),
        Err(fault) => Err(out_of_memory(fault)),
    }
}

// The program that a text spells.
fn program_of(alloc: Global, text: &[u8]) -> Result<Program, AllocError>
    requires { (p : ProgramTree) × Spells text.now p }
    ensures { IfOk result (λ p. Spells text.now (program_tree_of p)) }
{
    match parse(alloc, text) {
        Ok(program) => Ok(program),
        Err(fault) => Err(out_of_memory(fault)),
    }
}

// The tokens of a text that spells a program, and what each of them begins.
fn marks_of(alloc: Global, text: &[u8]) -> Result<Marked, AllocError>
    requires { (p : ProgramTree) × Spells text.now p }
    ensures { IfOk result (λ marked. Marks text.now marked.tokens marked.notes) }
{
    let tokens = tokens_of(alloc, text)?;
    let notes = notes_of(alloc, tokens.as_slice())?;
    Ok(Marked { tokens, notes })
}

// The first part of a program that has a fault.
fn first_part(alloc: Global, p: &Program, fault: &CheckFault) -> Result<Part, AllocError>
    requires formed { IsWellFormed (program_tree_of p.now) }
    requires faulty { IsFirst fault.now (check_faults (program_tree_of p.now)) }
    ensures { IfOk result (λ part. first_part (check_visits (program_tree_of p.now)) ≡ Some part) }
{
    match walk(alloc, p) {
        Ok(()) => unreachable!(),
        Err(Halted::Met(part)) => Ok(part),
        Err(Halted::Memory) => Err(AllocError),
    }
}

// The first byte of the token of a text that is one too many.
fn many_place(alloc: Global, text: &[u8]) -> Result<usize, AllocError>
    requires { (tokens : Items AnyToken) × HasTokens text.now tokens }
    ensures { (kind : AnyKind) → HasFault text.now (SyntaxFault.TooMany kind) → IfOk result (SyntaxPlace text.now (SyntaxFault.TooMany kind)) }
{
    let tokens = tokens_of(alloc, text)?;
    let n = place_of_many(alloc, tokens.as_slice())?;
    byte_of(alloc, text, n)
}

// Where a text breaks off, or passes a limit.
fn syntax_place(alloc: Global, text: &[u8], fault: SyntaxFault) -> Result<usize, AllocError>
    requires { HasFault text.now fault }
    ensures { IfOk result (λ place. SyntaxPlace text.now fault place) }
{
    match fault {
        SyntaxFault::BadByte(place) => Ok(place as usize),
        SyntaxFault::TooBig(place) => Ok(place as usize),
        SyntaxFault::Unexpected(n) => byte_of(alloc, text, n as usize),
        SyntaxFault::TooDeep(n) => byte_of(alloc, text, n as usize),
        SyntaxFault::TooMany(_) => many_place(alloc, text),
        SyntaxFault::Memory => Err(AllocError),
    }
}

fn syntax_point(alloc: Global, text: &[u8], fault: SyntaxFault) -> Result<Point, AllocError>
    requires { HasFault text.now fault }
    ensures { IfOk result (PointsFor text.now (Faulty fault)) }
{
    let place = syntax_place(alloc, text, fault)?;
    let message = String::from_str(alloc, syntax_message(text, fault))?;
    Ok(Point { place, message })
}

fn check_point(alloc: Global, text: &[u8], fault: &CheckFault) -> Result<Point, AllocError>
    requires { SpellsSuch text.now (λ p. IsFirst fault.now (check_faults p)) }
    ensures { IfOk result (PointsFor text.now (Misused fault.now)) }
{
    let program = program_of(alloc, text)?;
    spelled_is_well_formed();
    let part = first_part(alloc, &program, fault)?;
    let marked = marks_of(alloc, text)?;
    let n = fault_token(
        marked.tokens.as_slice(),
        marked.notes.as_slice(),
        part,
        fault,
    );
    let place = byte_of(alloc, text, n)?;
    let message = check_message(alloc, part, fault)?;
    Ok(Point { place, message })
}

// The place of the first definition of this name.
fn decl_place(decls: &[Decl], name: &[u8]) -> Option<usize>
    ensures { result ≡ position (λ (d : AnyDecl). bytes_eq name.now d.name) decls.now }
{
    decls
        .iter()
        .position(|d| name == d.name.as_str().as_bytes())
}

// The number of the definition of this name; how many there are, where there is none.
fn decl_named(p: &Program, name: &Text) -> usize
    ensures { (number : ℕ) → decl_number (program_tree_of p.now) name.now ≡ Some number → result ≡ number }
{
    let decls = p.decls.as_slice();
    match decl_place(decls, name.as_str().as_bytes()) {
        Some(number) => number,
        None => decls.len(),
    }
}

fn cycle_point(alloc: Global, text: &[u8], event: &Text, name: &Text) -> Result<Point, AllocError>
    requires { SpellsSuch text.now (λ p. IsFirstCycle p event.now name.now) }
    ensures { IfOk result (PointsFor text.now (Cyclic event.now name.now)) }
{
    let program = program_of(alloc, text)?;
    let decl = decl_named(&program, name);
    let marked = marks_of(alloc, text)?;
    let n = name_token(marked.notes.as_slice(), decl);
    let place = byte_of(alloc, text, n)?;
    let message = cycle_message(alloc, event)?;
    Ok(Point { place, message })
}

/// The place of a text's fault, as `read` of `checked_source` tells it, and what is told there. An `Err` is out of memory.
pub fn point_of(alloc: Global, text: &[u8], fault: &SourceFault) -> Result<Point, AllocError>
    requires { Found text.now (Err fault.now) }
    ensures { IfOk result (λ point. IfSome (reading_of fault.now) (λ reading. PointsFor text.now reading point)) }
{
    match fault {
        SourceFault::Syntax(fault) => syntax_point(alloc, text, *fault),
        SourceFault::Check(fault) => check_point(alloc, text, fault),
        SourceFault::Cycle { event, name } => cycle_point(alloc, text, event, name),
        SourceFault::Memory => Err(AllocError),
    }
}
