// The tokens of a text, or its first fault.
ghost use Rattle.std.specs.Prelude.{◌≡◌, ◌≢◌, ◌<◌, ◌≤◌, length, List as Items, IfOk, IfErr};
ghost use Rattle.frp_tree.specs.declared.tokens.Token.{Token as Tokens};
ghost use Rattle.efrp_syntax.specs.declared.faults.SyntaxFault.{SyntaxFault as Faults};
ghost use Rattle.frp_tree.specs.Tokens.{HasTokens, is_number_token};
ghost use Rattle.efrp_syntax.specs.Lexed.{Lexed, OnlyMemory, IsRefused};

use crate::faults::SyntaxFault;
use crate::prefixes::{skipped, token};
use frp_tree::limits::LONGEST_SOURCE;
use frp_tree::{List, Token};
use std::alloc::Global;

/// Whether the token is a number, with a suffix or without.
pub fn is_number(token: &Token) -> bool
    ensures { result ≡ is_number_token token.now }
{
    matches!(token, Token::Num(_) | Token::Wide(_))
}

/// The tokens of a text that isn't too long, or the first fault.
fn cut(alloc: Global, text: &[u8]) -> Result<List<Token>, SyntaxFault>
    requires { length text.now ≤ LONGEST_SOURCE }
    ensures { Lexed text.now result }
{
    let mut found = List::new(alloc);
    let mut rest = text;
    let mut after_number = false;
    while !rest.is_empty() {
        if let Some(more) = skipped(rest) {
            rest = more;
            after_number = false;
        } else {
            let place = (text.len() - rest.len()) as u32;
            let (next, more) = token(alloc, after_number, rest, place)?;
            after_number = is_number(&next);
            found.push(next)?;
            rest = more;
        }
    }
    Ok(found)
}

/// The tokens of a text of at most 65,536 bytes. `TooBig(65536)` exactly where the text is longer;
/// otherwise the first fault by byte place, `BadByte` or `TooBig`. `Memory` is out of memory. The time is
/// linear in the text.
pub fn lex(alloc: Global, text: &[u8]) -> Result<List<Token>, SyntaxFault>
    // The tokens, or the first fault.
    ensures lexed { Lexed text.now result }
    // A text has at most one list of tokens, and one with a fault has none.
    ensures only { IfOk result (λ tokens. (others : Items Tokens) → HasTokens text.now others → others ≡ tokens) }
    ensures none { (others : Items Tokens) → HasTokens text.now others → IfErr result OnlyMemory }
    // A text with a fault has one, and is refused with it.
    ensures fault { (fault : Faults) → fault ≢ SyntaxFault.Memory → Lexed text.now (Err fault) → IsRefused fault result }
    // A text that is too long takes no memory.
    ensures long { LONGEST_SOURCE < length text.now → result ≡ Err (SyntaxFault.TooBig LONGEST_SOURCE) }
{
    if text.len() > LONGEST_SOURCE {
        return Err(SyntaxFault::TooBig(LONGEST_SOURCE as u32));
    }
    cut(alloc, text)
}
