// The program of a text, or its first fault.
ghost use Rattle.std.specs.Prelude.{◌≡◌, ◌<◌, ◌≤◌, ◌^◌, length, ℕ, MatchResult, OnOk};
ghost use Rattle.frp_tree.specs.declared.kinds.Kind.{Kind as Kinds};
ghost use Rattle.frp_tree.specs.declared.limits.TheConstants.{LONGEST_SOURCE};
ghost use Rattle.frp_tree.specs.Tree.{ProgramTree};
ghost use Rattle.frp_tree.specs.Grammar.{HasTreeWithin, Spells};
ghost use Rattle.efrp_syntax.specs.declared.faults.SyntaxFault.{SyntaxFault as Faults};
ghost use Rattle.efrp_syntax.specs.Parsed.{Parsed, HasFault, IsProgram, IsSyntaxFault};
ghost use Rattle.efrp_syntax.specs.Programs.{Told, HasFew, IsFirstTooMany};

use crate::begun::{Begun, Stop};
use crate::counts::one_too_many;
use crate::faults::SyntaxFault;
use crate::lexer::lex;
use crate::programs::program;
use frp_tree::{List, Program, Token};
use std::alloc::Global;

/// Refuses the first that is one too many.
fn few(begun: &[Begun]) -> Result<(), SyntaxFault>
    ensures { MatchResult result (λ done. HasFew begun.now) (λ fault. (kind : Kinds) × (fault ≡ SyntaxFault.TooMany kind) × IsFirstTooMany begun.now kind) }
{
    match one_too_many(begun) {
        Some((_, kind)) => Err(SyntaxFault::TooMany(kind)),
        None => Ok(()),
    }
}

/// The program of tokens, or their first fault.
fn tree(alloc: Global, tokens: &[Token]) -> Result<Program, SyntaxFault>
    requires { length tokens.now ≤ LONGEST_SOURCE }
    ensures told { Told tokens.now result }
    ensures only { (p : ProgramTree) → HasTreeWithin p tokens.now → IsProgram p result }
{
    let mut begun = List::new(alloc);
    match program(alloc, tokens, &mut begun) {
        Ok(program) => {
            few(begun.as_slice())?;
            Ok(program)
        }
        Err(Stop::Unexpected(left)) => {
            few(begun.as_slice())?;
            Err(SyntaxFault::Unexpected((tokens.len() - left) as u32))
        }
        Err(Stop::TooDeep(left)) => {
            few(begun.as_slice())?;
            Err(SyntaxFault::TooDeep((tokens.len() - left) as u32))
        }
        Err(Stop::Memory) => Err(SyntaxFault::Memory),
    }
}

/// The program that a text spells, or its fault. The time is linear in the text.
///
/// `BadByte` and `TooBig` come where the text has no tokens, and tell a byte. `Unexpected(n)` tells that the first n
/// tokens are the longest prefix with which some program begins. `TooDeep(n)` and `TooMany(kind)` come at the first
/// token past a limit, where the tokens up to it begin a program; at one token `TooDeep` comes first. `Memory` is out
/// of memory.
pub fn parse(alloc: Global, text: &[u8]) -> Result<Program, SyntaxFault>
    // The program that the text spells, or its fault.
    ensures parsed { Parsed text.now result }
    // A text that spells a program is answered with it, and one with a fault with that fault, if memory suffices.
    ensures spelled { (p : ProgramTree) → Spells text.now p → IsProgram p result }
    ensures fault { (fault : Faults) → HasFault text.now fault → IsSyntaxFault fault result }
{
    let tokens = lex(alloc, text)?;
    tree(alloc, tokens.as_slice())
}
