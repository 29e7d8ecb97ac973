// The fields of a line.
ghost use Rattle.std.specs.Prelude.{◌≡◌, ◌<◌, ◌≤◌, ◌∷◌, [], ◌==◌, length, MatchOption, false};
ghost use Rattle.text_parts.specs.Bytes.{begins};
ghost use Rattle.text_parts.specs.Fields.{fields_of};

use crate::cuts::split_once;

// A text without the spaces at its beginning.
fn behind_spaces(text: &[u8]) -> &[u8]
    ensures same { fields_of result.now ≡ fields_of text.now }
    ensures begins { begins (λ b. b == 32) result.now ≡ false }
    ensures length { length result.now ≤ length text.now }
{
    let mut rest = text;
    while let [b' ', more @ ..] = rest {
        rest = more;
    }
    rest
}

/// The first field of a line, and what follows it. Fields stand between spaces, one or more, and none is empty. `None`
/// exactly where no field is left.
pub fn next_field(text: &[u8]) -> Option<(&[u8], &[u8])>
    ensures field { MatchOption result (fields_of text.now ≡ []) (λ found. fields_of text.now ≡ found.0.now ∷ fields_of found.1.now) }
    ensures shorter { MatchOption result (fields_of text.now ≡ []) (λ found. length found.1.now < length text.now) }
{
    let text = behind_spaces(text);
    match split_once(text, b' ') {
        Some((field, rest)) => Some((field, rest)),
        None if text.is_empty() => None,
        None => Some((text, &[])),
    }
}
