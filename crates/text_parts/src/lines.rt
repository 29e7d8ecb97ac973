// The lines of a text.
ghost use Rattle.std.specs.Prelude.{◌≡◌, ◌<◌, ◌∷◌, [], length, MatchOption};
ghost use Rattle.std.specs.Str.Lines.{lines, strip_carriage_return};

use crate::cuts::split_once;

// A line without the CR of its ending.
fn without_return(line: &[u8]) -> &[u8]
    ensures { result.now ≡ strip_carriage_return line.now }
{
    match line {
        [prefix @ .., b'\r'] => prefix,
        _ => line,
    }
}

/// The first line of a text, without its ending, and what follows it. `None` exactly where the text is empty. A line
/// ends in LF or CR LF; the last may have no ending, and then a CR at the very end is a byte of it.
pub fn next_line(text: &[u8]) -> Option<(&[u8], &[u8])>
    ensures line { MatchOption result (lines text.now ≡ []) (λ found. lines text.now ≡ found.0.now ∷ lines found.1.now) }
    ensures shorter { MatchOption result (text.now ≡ []) (λ found. length found.1.now < length text.now) }
{
    match split_once(text, b'\n') {
        Some((line, rest)) => Some((without_return(line), rest)),
        None if text.is_empty() => None,
        None => Some((text, &[])),
    }
}
