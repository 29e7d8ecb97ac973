// What a text begins with: a blank or a comment, or a token.
ghost use Rattle.std.specs.Prelude.{◌≡◌, false, IsTrue, IfOk, IfErr};
ghost use Rattle.std.specs.List.{list_all};
ghost use Rattle.text_parts.specs.Bytes.{is_digit, is_letter, begins};
ghost use Rattle.frp_tree.specs.Tokens.{starts_comment};
ghost use Rattle.efrp_syntax.specs.Lexed.{OnlyMemory};
ghost use Rattle.efrp_syntax.specs.Pieces.{is_in, Skipped, Taken};
ghost use Rattle.efrp_syntax.specs.declared.classes.Class.TheVariants.{Word, Digit};

use crate::classes::{Class, is_blank};
use crate::faults::SyntaxFault;
use crate::marks::mark;
use crate::numbers::{behind_suffix, number};
use frp_tree::{Text, Token};
use std::alloc::Global;
use std::str;
use text_parts::LONGEST_NAME;

/// What follows the blank or the comment at the beginning of a text.
pub fn skipped(text: &[u8]) -> Option<&[u8]>
    ensures { Skipped text.now result }
{
    match text {
        [b'/', b'/', body @ ..] => Some(Class::Line.run(body).1),
        [byte, rest @ ..] if is_blank(*byte) => Some(rest),
        _ => None,
    }
}

/// A text with the bytes of a name.
fn name_of(alloc: Global, bytes: &[u8]) -> Result<Text, SyntaxFault>
    requires { IsTrue (list_all (is_in Word) bytes.now) }
    ensures ok { IfOk result (λ name. name ≡ bytes.now) }
    ensures err { IfErr result OnlyMemory }
{
    match str::from_utf8(bytes) {
        Ok(name) => Ok(Text::new(alloc, name)?),
        Err(_) => unreachable!(),
    }
}

/// The name at the beginning of a text, and what follows it. `place` is the text's place, in bytes, told in a
/// fault.
fn word(alloc: Global, text: &[u8], place: u32) -> Result<(Token, &[u8]), SyntaxFault>
    requires letter { IsTrue (begins is_letter text.now) }
    requires no_comment { starts_comment text.now ≡ false }
    ensures { Taken false text.now place result }
{
    let (bytes, rest) = Class::Word.run(text);
    if bytes.len() > LONGEST_NAME {
        return Err(SyntaxFault::TooBig(place));
    }
    Ok((Token::Word(name_of(alloc, bytes)?), rest))
}

/// The number at the beginning of a text, with its suffix, and what follows it.
fn numeral(text: &[u8], place: u32) -> Result<(Token, &[u8]), SyntaxFault>
    requires digit { IsTrue (begins is_digit text.now) }
    requires no_comment { starts_comment text.now ≡ false }
    ensures { Taken false text.now place result }
{
    let (value, rest) = number(text);
    match (value, behind_suffix(rest)) {
        (None, _) => Err(SyntaxFault::TooBig(place)),
        (Some(value), Some(behind)) => Ok((Token::Wide(value), behind)),
        (Some(value), None) => Ok((Token::Num(value), rest)),
    }
}

/// The token at the beginning of a text that begins with no comment, and what follows it. `after_number` says
/// that a number stands directly before.
pub fn token(
    alloc: Global,
    after_number: bool,
    text: &[u8],
    place: u32,
) -> Result<(Token, &[u8]), SyntaxFault>
    requires { starts_comment text.now ≡ false }
    ensures { Taken after_number text.now place result }
{
    let begins_word = Class::Word.begins(text);
    if after_number && begins_word {
        Err(SyntaxFault::BadByte(place))
    } else if Class::Digit.begins(text) {
        numeral(text, place)
    } else if begins_word {
        word(alloc, text, place)
    } else {
        match mark(text) {
            Some((number, rest)) => Ok((Token::Mark(number), rest)),
            None => Err(SyntaxFault::BadByte(place)),
        }
    }
}
