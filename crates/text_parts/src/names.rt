// Names, and the bytes that they consist of.
ghost use Rattle.std.specs.Prelude.{◌≡◌, ◌||◌, MatchOption, IsTrue, false};
ghost use Rattle.std.specs.List.{list_all};
ghost use Rattle.text_parts.specs.Bytes.{is_digit, is_letter};
ghost use Rattle.text_parts.specs.Names.{has_form_of_name, is_name};

use std::str;

/// The greatest length of a name, in bytes.
pub const LONGEST_NAME: usize = 31;

/// Whether the byte is a letter or `_`.
pub fn is_letter(byte: u8) -> bool
    ensures { result ≡ is_letter byte }
{
    byte.is_ascii_alphabetic() || byte == b'_'
}

/// Whether the byte is a letter, a digit or `_`.
pub fn is_word_byte(byte: u8) -> bool
    ensures { result ≡ (is_letter byte || is_digit byte) }
{
    byte.is_ascii_alphanumeric() || byte == b'_'
}

// Whether letters, digits and `_` are all.
fn are_word_bytes(bytes: &[u8]) -> bool
    ensures { result ≡ list_all (λ b. is_letter b || is_digit b) bytes.now }
{
    bytes.iter().all(|byte| is_word_byte(*byte))
}

/// Whether a letter or `_` stands first, and then letters, digits and `_` alone.
pub fn has_form_of_name(field: &[u8]) -> bool
    ensures { result ≡ has_form_of_name field.now }
{
    match field.split_first() {
        Some((first, rest)) => is_letter(*first) && are_word_bytes(rest),
        None => false,
    }
}

/// Whether the field has that form, and at most 31 bytes.
pub fn is_name(field: &[u8]) -> bool
    ensures { result ≡ is_name field.now }
{
    has_form_of_name(field) && field.len() <= LONGEST_NAME
}

/// The field as a name. `None` exactly where it isn't one.
pub fn name_in(field: &[u8]) -> Option<&str>
    ensures { MatchOption result (is_name field.now ≡ false) (λ name. IsTrue (is_name field.now) × (name.now ≡ field.now)) }
{
    if !is_name(field) {
        return None;
    }
    match str::from_utf8(field) {
        Ok(name) => Some(name),
        Err(_) => unreachable!(),
    }
}
