// Numbers, spelled in digits. No sign is a part of one.
ghost use Rattle.std.specs.Prelude.{◌≡◌, ◌≢◌, ℕ, ◌<◌, ◌≤◌, ◌^◌, [], ◌∷◌, MatchOption, IsTrue, false};
ghost use Rattle.std.specs.List.{list_all};
ghost use Rattle.std.specs.Fmt.{decimal};
ghost use Rattle.std.specs.Str.{IsUtf8};
ghost use Rattle.text_parts.specs.Bytes.{is_digit, is_hex_digit};
ghost use Rattle.text_parts.specs.Digits.{hex3, hex4};
ghost use Rattle.text_parts.specs.Numbers.{is_byte, is_decimal, is_plain, value_after};

use crate::digits::{digit_value, hex_digit_in, upper_hex_digit_in};
use std::str;

/// The number that digits of either case spell in a base. `None` exactly where it isn't below 2^32.
pub fn number_of(base: u32, digits: &[u8]) -> Option<u32>
    requires base { 0 < base }
    requires digits { IsTrue (list_all is_hex_digit digits.now) }
    ensures { MatchOption result (2 ^ 32 ≤ value_after base 0 digits.now) (λ n. n ≡ value_after base 0 digits.now) }
{
    let mut value: u32 = 0;
    for digit in digits {
        value = value
            .checked_mul(base)?
            .checked_add(u32::from(digit_value(*digit)))?;
    }
    Some(value)
}

// Whether these bytes are decimal digits.
fn are_digits(bytes: &[u8]) -> bool
    ensures { result ≡ list_all is_digit bytes.now }
{
    bytes.iter().all(|byte| byte.is_ascii_digit())
}

/// The number that a field of decimal digits spells, which may begin with zeros. `None` exactly where the field is
/// empty or has another byte than digits, as a sign, or the number isn't below 2^32.
pub fn decimal_in(field: &[u8]) -> Option<u32>
    ensures { MatchOption result (is_decimal field.now ≡ false) (λ n. IsTrue (is_decimal field.now) × (n ≡ value_after 10 0 field.now)) }
{
    if field.is_empty() || !are_digits(field) {
        return None;
    }
    number_of(10, field)
}

// Whether neither a sign nor a leading zero stands at the beginning.
fn is_plain(field: &[u8]) -> bool
    ensures { result ≡ is_plain field.now }
{
    match field.split_first() {
        Some((first, rest)) => *first != b'+' && (*first != b'0' || rest.is_empty()),
        None => true,
    }
}

// The field as text.
fn text(field: &[u8]) -> Option<&str>
    ensures { MatchOption result (IsUtf8 field.now → ⊥) (λ text. text.now ≡ field.now) }
{
    str::from_utf8(field).ok()
}

/// The number below 2^32 that the field writes in decimal, without a leading zero. `None` exactly where it writes none.
pub fn written_decimal_in(field: &[u8]) -> Option<u32>
    ensures { MatchOption result
        ((n : ℕ) → n < 2 ^ 32 → field.now ≢ decimal n)
        (λ n. field.now ≡ decimal n) }
{
    if !is_plain(field) {
        return None;
    }
    text(field)?.parse::<u32>().ok()
}

/// The byte that two hexadecimal digits of either case spell. `None` exactly where the field isn't of that form.
pub fn byte_in(field: &[u8]) -> Option<u8>
    ensures { MatchOption result (is_byte field.now ≡ false) (λ byte. IsTrue (is_byte field.now) × (byte ≡ value_after 16 0 field.now)) }
{
    match field {
        [high, low] => Some(hex_digit_in(*high)? * 16 + hex_digit_in(*low)?),
        _ => None,
    }
}

// The number that these three digits write.
fn hex3_of(first: u8, second: u8, third: u8) -> Option<u16>
    ensures { MatchOption result
        ((n : ℕ) → n < 0x1000 → first ∷ second ∷ third ∷ [] ≢ hex3 n)
        (λ n. (n < 0x1000) × (first ∷ second ∷ third ∷ [] ≡ hex3 n)) }
{
    let high = upper_hex_digit_in(first)? * 16 + upper_hex_digit_in(second)?;
    Some(u16::from(high) * 16 + u16::from(upper_hex_digit_in(third)?))
}

// The number that these four digits write.
fn hex4_of(first: u8, second: u8, third: u8, fourth: u8) -> Option<u16>
    ensures { MatchOption result
        ((n : ℕ) → n < 0x10000 → first ∷ second ∷ third ∷ fourth ∷ [] ≢ hex4 n)
        (λ n. first ∷ second ∷ third ∷ fourth ∷ [] ≡ hex4 n) }
{
    let high = upper_hex_digit_in(first)? * 16 + upper_hex_digit_in(second)?;
    let low = upper_hex_digit_in(third)? * 16 + upper_hex_digit_in(fourth)?;
    Some(u16::from(high) * 256 + u16::from(low))
}

/// The number below 1000h that the field writes in three upper-case hexadecimal digits. `None` exactly where it writes
/// none.
pub fn hex3_in(field: &[u8]) -> Option<u16>
    ensures { MatchOption result
        ((n : ℕ) → n < 0x1000 → field.now ≢ hex3 n)
        (λ n. (n < 0x1000) × (field.now ≡ hex3 n)) }
{
    match field {
        [a, b, c] => hex3_of(*a, *b, *c),
        _ => None,
    }
}

/// The number that the field writes in four upper-case hexadecimal digits. `None` exactly where it writes none.
pub fn hex4_in(field: &[u8]) -> Option<u16>
    ensures { MatchOption result
        ((n : ℕ) → n < 0x10000 → field.now ≢ hex4 n)
        (λ n. field.now ≡ hex4 n) }
{
    match field {
        [a, b, c, d] => hex4_of(*a, *b, *c, *d),
        _ => None,
    }
}
