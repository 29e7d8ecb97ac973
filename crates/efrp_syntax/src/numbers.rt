// The number at the beginning of a text.
ghost use Rattle.std.specs.Prelude.{◌≡◌, ◌<◌, ℕ, List, ◌∷◌, ◌==◌, MatchOption, IsTrue, false};
ghost use Rattle.std.specs.List.{list_all};
ghost use Rattle.text_parts.specs.Bytes.{is_digit, is_hex_digit, begins};
ghost use Rattle.text_parts.specs.Numbers.{value_after};
ghost use Rattle.efrp_syntax.specs.Pieces.{fitting, IsFirstNumber};

use crate::classes::Class;
use text_parts::number_of;

/// The number that digits spell in a base, and None exactly where it is above 65,535.
fn value(base: u32, digits: &[u8]) -> Option<u16>
    requires base { 0 < base }
    requires digits { IsTrue (list_all is_hex_digit digits.now) }
    ensures { result ≡ fitting (value_after base 0 digits.now) }
{
    u16::try_from(number_of(base, digits)?).ok()
}

/// What follows `0x`, where the text begins with that and a hexadecimal digit.
fn behind_prefix(text: &[u8]) -> Option<&[u8]>
    ensures { MatchOption result
        ((digits : List ℕ) → text.now ≡ 48 ∷ 120 ∷ digits → begins is_hex_digit digits ≡ false)
        (λ digits. (text.now ≡ 48 ∷ 120 ∷ digits.now) × IsTrue (begins is_hex_digit digits.now)) }
{
    match text {
        [b'0', b'x', digits @ ..] if Class::HexDigit.begins(digits) => Some(digits),
        _ => None,
    }
}

/// The number at the beginning of a text, and None for one above 65,535; and what follows it.
pub fn number(text: &[u8]) -> (Option<u16>, &[u8])
    requires { IsTrue (begins is_digit text.now) }
    ensures { IsFirstNumber text.now result.0 result.1.now }
{
    match behind_prefix(text) {
        Some(behind) => {
            let (digits, rest) = Class::HexDigit.run(behind);
            (value(16, digits), rest)
        }
        None => {
            let (digits, rest) = Class::Digit.run(text);
            (value(10, digits), rest)
        }
    }
}

/// What follows the suffix `w`, where the text begins with it.
pub fn behind_suffix(text: &[u8]) -> Option<&[u8]>
    ensures { MatchOption result (begins (λ b. b == 119) text.now ≡ false) (λ rest. text.now ≡ 119 ∷ rest.now) }
{
    match text {
        [b'w', rest @ ..] => Some(rest),
        _ => None,
    }
}
