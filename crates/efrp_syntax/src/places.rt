// Where the tokens of a text begin, what each of them begins, and which is one too many.
ghost use Rattle.std.specs.Prelude.{◌≡◌, map, List as Items, IfOk, IfErr};
ghost use Rattle.frp_tree.specs.declared.kinds.Kind.{Kind as Kinds};
ghost use Rattle.frp_tree.specs.declared.tokens.Token.{Token as Tokens};
ghost use Rattle.frp_tree.specs.Breaks.{IsTooMany};
ghost use Rattle.frp_tree.specs.Cells.{Cell, IsWithinLimits, tokens_of};
ghost use Rattle.frp_tree.specs.Grammar.{SpellsProgram};
ghost use Rattle.frp_tree.specs.Tokens.{HasTokens};
ghost use Rattle.frp_tree.specs.Tree.{ProgramTree};
ghost use Rattle.efrp_syntax.specs.Answers.{begun};
ghost use Rattle.efrp_syntax.specs.Lexed.{OnlyMemory};
ghost use Rattle.efrp_syntax.specs.Places.{IsTokenPlace};
ghost use Rattle.efrp_syntax.specs.Programs.{AreNoted};

use crate::begun::{Notes, Stop};
use crate::counts::one_too_many;
use crate::faults::SyntaxFault;
use crate::lexer::is_number;
use crate::prefixes::{skipped, token};
use crate::programs::program;
use frp_tree::limits::LONGEST_SOURCE;
use frp_tree::{List, Token};
use std::alloc::{AllocError, Global};

/// The byte at which the token with this number begins, both counted from 0; the length of the text where it has no
/// more tokens. A fault of the lexer up to this token comes as `lex` tells it. The time is linear in the text.
pub fn token_place(alloc: Global, text: &[u8], n: usize) -> Result<usize, SyntaxFault>
    ensures place { IfOk result (λ place. IsTokenPlace text.now n place) }
    // A text that has tokens has no fault.
    ensures none { (others : Items Tokens) → HasTokens text.now others → IfErr result OnlyMemory }
{
    if text.len() > LONGEST_SOURCE {
        return Err(SyntaxFault::TooBig(LONGEST_SOURCE as u32));
    }
    let mut rest = text;
    let mut after_number = false;
    let mut left = n;
    while !rest.is_empty() {
        if let Some(more) = skipped(rest) {
            rest = more;
            after_number = false;
        } else {
            let place = text.len() - rest.len();
            let (next, more) = token(alloc, after_number, rest, place as u32)?;
            if left == 0 {
                return Ok(place);
            }
            left -= 1;
            after_number = is_number(&next);
            rest = more;
        }
    }
    Ok(text.len())
}

// What the tokens begin that a program's reader reads.
fn noted(alloc: Global, tokens: &[Token]) -> Result<Notes, AllocError>
    ensures { IfOk result (λ notes. AreNoted tokens.now notes) }
{
    let mut begun = List::new(alloc);
    match program(alloc, tokens, &mut begun) {
        Err(Stop::Memory) => Err(AllocError),
        _ => Ok(begun),
    }
}

/// What each token of a program begins, up to the one at which the tokens break off. An `Err` is out of memory.
pub fn notes_of(alloc: Global, tokens: &[Token]) -> Result<Notes, AllocError>
    // Of tokens that have a tree within the limits, what their cells begin.
    ensures { (p : ProgramTree) (cells : Items Cell) → SpellsProgram p cells → IsWithinLimits cells → tokens_of cells ≡ tokens.now → IfOk result (λ notes. notes ≡ map begun cells) }
{
    noted(alloc, tokens)
}

/// The number of the token that begins one too many, counted from 0; where there is none, how many tokens there are. An
/// `Err` is out of memory.
pub fn place_of_many(alloc: Global, tokens: &[Token]) -> Result<usize, AllocError>
    ensures { (kind : Kinds) (many : IsTooMany tokens.now kind) → IfOk result (λ n. n ≡ many.n) }
{
    let begun = noted(alloc, tokens)?;
    Ok(match one_too_many(begun.as_slice()) {
        Some((place, _)) => place,
        None => tokens.len(),
    })
}
