// Readers of one token: each takes the token that is asked for, and notes what it begins.
ghost use Rattle.std.specs.Prelude.{◌≡◌, ◌≢◌, ℕ, List as Items, false, [], ◌∷◌, Some, MatchOption};
ghost use Rattle.frp_tree.specs.Cells.{literal_token};
ghost use Rattle.frp_tree.specs.Names.{is_keyword};
ghost use Rattle.frp_tree.specs.declared.syntax.Lit.{Lit as Lits};
ghost use Rattle.frp_tree.specs.declared.tokens.Token.TheVariants as token;
ghost use Rattle.efrp_syntax.specs.Answers.{head, noted, Answers, Passes, Anything, One, Tok};

use crate::begun::{Begun, Notes, Read, Stop};
use crate::keywords::is_keyword;
use frp_tree::{Lit, Text, Token};
use std::alloc::Global;

/// The next token and those behind it. Takes no memory.
pub fn split(tokens: &[Token]) -> Option<(&Token, &[Token])>
    ensures { MatchOption result (tokens.now ≡ []) (λ found. tokens.now ≡ found.0.now ∷ found.1.now) }
{
    match tokens {
        [first, rest @ ..] => Some((first, rest)),
        [] => None,
    }
}

/// What follows this word, where the tokens begin with it. Takes no memory.
pub fn behind_word<'a>(word: &str, tokens: &'a [Token]) -> Option<&'a [Token]>
    ensures { MatchOption result (head tokens.now ≢ Some (token.Word word.now)) (λ rest. tokens.now ≡ token.Word word.now ∷ rest.now) }
{
    match split(tokens) {
        Some((Token::Word(next), rest)) if next.as_str() == word => Some(rest),
        _ => None,
    }
}

/// What follows this mark, where the tokens begin with it. Takes no memory.
pub fn behind_mark(number: u8, tokens: &[Token]) -> Option<&[Token]>
    ensures { MatchOption result (head tokens.now ≢ Some (token.Mark number)) (λ rest. tokens.now ≡ token.Mark number ∷ rest.now) }
{
    match tokens {
        [Token::Mark(next), rest @ ..] if *next == number => Some(rest),
        _ => None,
    }
}

/// The number with no suffix at the beginning, and what follows it. Takes no memory.
pub fn first_number(tokens: &[Token]) -> Option<(u16, &[Token])>
    ensures { MatchOption result ((n : ℕ) → head tokens.now ≢ Some (token.Num n)) (λ found. tokens.now ≡ token.Num found.0 ∷ found.1.now) }
{
    match tokens {
        [Token::Num(value), rest @ ..] => Some((*value, rest)),
        _ => None,
    }
}

/// The name at the beginning, and what follows it. A keyword is none. Takes no memory.
pub fn first_name(tokens: &[Token]) -> Option<(&Text, &[Token])>
    ensures { MatchOption result
        ((x : Items ℕ) → is_keyword x ≡ false → head tokens.now ≢ Some (token.Word x))
        (λ found. (tokens.now ≡ token.Word found.0.now ∷ found.1.now) × (is_keyword found.0.now ≡ false)) }
{
    match tokens {
        [Token::Word(next), rest @ ..] if !is_keyword(next.as_str()) => Some((next, rest)),
        _ => None,
    }
}

/// The literal that the token is. Takes no memory.
fn literal_of(token: &Token) -> Option<Lit>
    ensures { MatchOption result ((l : Lits) → literal_token l ≢ token.now) (λ l. literal_token l ≡ token.now) }
{
    match token {
        Token::Num(value) => Some(Lit::Plain(*value)),
        Token::Wide(value) => Some(Lit::Wide(*value)),
        Token::Word(word) => match word.as_str() {
            "true" => Some(Lit::Truth(true)),
            "false" => Some(Lit::Truth(false)),
            _ => None,
        },
        Token::Mark(_) => None,
    }
}

/// The literal at the beginning, and what follows it. Takes no memory.
pub fn first_literal(tokens: &[Token]) -> Option<(Lit, &[Token])>
    ensures { MatchOption result
        ((l : Lits) → head tokens.now ≢ Some (literal_token l))
        (λ found. tokens.now ≡ literal_token found.0 ∷ found.1.now) }
{
    match tokens {
        [next, rest @ ..] => Some((literal_of(next)?, rest)),
        [] => None,
    }
}

/// Reads this word, which begins what `note` says.
pub fn word<'a>(
    word: &str,
    note: Begun,
    tokens: &'a [Token],
    begun: &mut Notes,
) -> Result<&'a [Token], Stop>
    ensures { Passes (Tok (noted note (token.Word word.now))) Anything tokens.now begun.old begun.new result }
{
    match behind_word(word, tokens) {
        Some(rest) => {
            begun.push(note)?;
            Ok(rest)
        }
        None => Err(Stop::Unexpected(tokens.len())),
    }
}

/// Reads the mark of this number, which begins what `note` says.
pub fn mark<'a>(
    number: u8,
    note: Begun,
    tokens: &'a [Token],
    begun: &mut Notes,
) -> Result<&'a [Token], Stop>
    ensures { Passes (Tok (noted note (token.Mark number))) Anything tokens.now begun.old begun.new result }
{
    match behind_mark(number, tokens) {
        Some(rest) => {
            begun.push(note)?;
            Ok(rest)
        }
        None => Err(Stop::Unexpected(tokens.len())),
    }
}

/// Reads a number with no suffix, which begins what `note` says.
pub fn number<'a>(note: Begun, tokens: &'a [Token], begun: &mut Notes) -> Read<'a, u16>
    ensures { Answers (One (λ n. noted note (token.Num n)) (λ n. Unit {0})) Anything (λ n. n) tokens.now begun.old begun.new result }
{
    match first_number(tokens) {
        Some((value, rest)) => {
            begun.push(note)?;
            Ok((value, rest))
        }
        None => Err(Stop::Unexpected(tokens.len())),
    }
}

/// Reads a name, which begins what `note` says. A keyword is none.
pub fn name<'a>(
    alloc: Global,
    note: Begun,
    tokens: &'a [Token],
    begun: &mut Notes,
) -> Read<'a, Text>
    ensures { Answers (One (λ x. noted note (token.Word x)) (λ x. is_keyword x ≡ false)) Anything (λ x. x) tokens.now begun.old begun.new result }
{
    match first_name(tokens) {
        Some((next, rest)) => {
            begun.push(note)?;
            Ok((next.copy(alloc)?, rest))
        }
        None => Err(Stop::Unexpected(tokens.len())),
    }
}

/// Reads a literal, which begins what `note` says.
pub fn literal<'a>(note: Begun, tokens: &'a [Token], begun: &mut Notes) -> Read<'a, Lit>
    ensures { Answers (One (λ l. noted note (literal_token l)) (λ l. Unit {0})) Anything (λ l. l) tokens.now begun.old begun.new result }
{
    match first_literal(tokens) {
        Some((value, rest)) => {
            begun.push(note)?;
            Ok((value, rest))
        }
        None => Err(Stop::Unexpected(tokens.len())),
    }
}
