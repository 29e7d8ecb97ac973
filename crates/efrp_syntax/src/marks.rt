// How the marks are written, and the mark at the beginning of a text.
ghost use Rattle.std.specs.Prelude.{◌≡◌, ◌≢◌, ℕ, [], Some, MatchOption, slice_get, get_or};
ghost use Rattle.frp_tree.specs.Tokens.{marks};
ghost use Rattle.efrp_syntax.specs.Pieces.{HasNoLongMark, HasNoMark, IsFirstMark};

/// How the marks are written, in the order of their numbers.
static TEXTS: [&str; 31] = [
    ";", ":", "=", "{", "}", "(", ")", "=>", "||", "&&", "==", "!=", "<", "<=", ">", ">=", "|",
    "^", "&", "<<", ">>", "+", "-", "*", "/", "%", "~", "!", "[", "]", ",",
];

/// How the mark of this number is written; there is none from 31 on. Takes no memory.
pub fn text_of(number: u8) -> &'static str
    ensures { result.now ≡ get_or marks number [] }
{
    let place = usize::from(number);
    if place < TEXTS.len() {
        TEXTS[place]
    } else {
        ""
    }
}

/// The number of the mark that is written so. Takes no memory.
fn number_of(text: &[u8]) -> Option<u8>
    ensures { MatchOption result
        ((k : ℕ) → slice_get marks k ≢ Some text.now)
        (λ k. slice_get marks k ≡ Some text.now) }
{
    for number in 0..31 {
        if text_of(number).as_bytes() == text {
            return Some(number);
        }
    }
    None
}

/// The mark of two bytes at the beginning of a text, and what follows it.
fn long_mark(text: &[u8]) -> Option<(u8, &[u8])>
    ensures { MatchOption result (HasNoLongMark text.now) (λ found. IsFirstMark text.now found.0 found.1.now) }
{
    match text {
        [first, second, rest @ ..] => Some((number_of(&[*first, *second])?, rest)),
        _ => None,
    }
}

/// The longest mark at the beginning of a text, and what follows it.
pub fn mark(text: &[u8]) -> Option<(u8, &[u8])>
    ensures { MatchOption result (HasNoMark text.now) (λ found. IsFirstMark text.now found.0 found.1.now) }
{
    if let Some(found) = long_mark(text) {
        return Some(found);
    }
    match text {
        [first, rest @ ..] => Some((number_of(&[*first])?, rest)),
        [] => None,
    }
}
