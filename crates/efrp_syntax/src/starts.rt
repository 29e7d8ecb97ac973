// What the tokens begin with.
ghost use Rattle.std.specs.Prelude.{MatchBool};
ghost use Rattle.efrp_syntax.specs.Answers.{head};
ghost use Rattle.efrp_syntax.specs.Items.{StartsWord, StartsMark, StartsName};

use crate::readers::{behind_mark, behind_word, first_name};
use frp_tree::Token;

/// Whether the tokens begin with this word. Takes no memory.
pub fn begins(word: &str, tokens: &[Token]) -> bool
    ensures { MatchBool result (StartsWord word.now (head tokens.now)) (StartsWord word.now (head tokens.now) → ⊥) }
{
    match behind_word(word, tokens) {
        Some(_) => true,
        None => false,
    }
}

/// Whether the tokens begin with this mark. Takes no memory.
pub fn begins_with_mark(number: u8, tokens: &[Token]) -> bool
    ensures { MatchBool result (StartsMark number (head tokens.now)) (StartsMark number (head tokens.now) → ⊥) }
{
    match behind_mark(number, tokens) {
        Some(_) => true,
        None => false,
    }
}

/// Whether the tokens begin with a name. Takes no memory.
pub fn begins_with_name(tokens: &[Token]) -> bool
    ensures { MatchBool result (StartsName (head tokens.now)) (StartsName (head tokens.now) → ⊥) }
{
    match first_name(tokens) {
        Some(_) => true,
        None => false,
    }
}
