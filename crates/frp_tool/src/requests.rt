// What the words of a command line ask for.
ghost use Rattle.std.specs.Prelude.{◌≡◌, false, true, [], ◌∷◌, IfSome, MatchOption};
ghost use Rattle.std.specs.Option.{option_map};
ghost use Rattle.std.specs.Str.{bytes_eq};
ghost use Rattle.text_parts.specs.Numbers.{value_after};
ghost use Rattle.frp_tool.specs.Requests.{differ, is_operand, is_seed, names_in, request_of, WritesApart};

use frp_tree::Text;

/// What is asked for: a command, and the names of the files that it is given. `Big` has the number of its program.
#[derive(Clone, Copy, Debug)]
pub enum Request<N> {
    Check { source: N },
    Compile { source: N, hex: N, map: N },
    Run { hex: N, map: N, script: N },
    Model { source: N, events: N },
    Big { number: u32, hex: N, map: N },
}

/// The longest number of `big`, in digits.
const SEED_DIGITS: usize = 10;

fn is(word: &Text, name: &str) -> bool
    ensures { result ≡ bytes_eq word.now name.now }
{
    word.as_str() == name
}

fn can_be_operand(word: &Text) -> bool
    ensures { result ≡ is_operand word.now }
{
    match word.as_str().as_bytes() {
        [] => false,
        [first, ..] => *first != b'-',
    }
}

fn are_different(a: &Text, b: &Text) -> bool
    ensures { result ≡ differ a.now b.now }
{
    a.as_str() != b.as_str()
}

// The number that at most ten decimal digits spell, where it fits.
fn seed(word: &Text) -> Option<u32>
    ensures { MatchOption result (is_seed word.now ≡ false) (λ n. (is_seed word.now ≡ true) × (n ≡ value_after 10 0 word.now)) }
{
    let digits = word.as_str().as_bytes();
    if digits.is_empty() || SEED_DIGITS < digits.len() {
        return None;
    }
    let mut value: u64 = 0;
    for digit in digits {
        if !digit.is_ascii_digit() {
            return None;
        }
        value = value * 10 + u64::from(*digit - b'0');
    }
    u32::try_from(value).ok()
}

// The request of a command's name and three other words.
fn request_of_four<'a>(
    name: &Text,
    a: &'a Text,
    b: &'a Text,
    c: &'a Text,
) -> Option<Request<&'a Text>>
    ensures is { option_map names_in result ≡ request_of (name.now ∷ a.now ∷ b.now ∷ c.now ∷ []) }
    ensures apart { IfSome result (λ request. WritesApart (names_in request)) }
{
    if !can_be_operand(a) || !can_be_operand(b) || !can_be_operand(c) {
        return None;
    }
    if is(name, "compile") && are_different(a, b) && are_different(a, c) && are_different(b, c) {
        return Some(Request::Compile {
            source: a,
            hex: b,
            map: c,
        });
    }
    if is(name, "run") {
        return Some(Request::Run {
            hex: a,
            map: b,
            script: c,
        });
    }
    if is(name, "big") && are_different(b, c) {
        return Some(Request::Big {
            number: seed(a)?,
            hex: b,
            map: c,
        });
    }
    None
}

/// The request that these words are, and None where they are none.
pub fn request_in<'a>(words: &'a [Text]) -> Option<Request<&'a Text>>
    ensures is { option_map names_in result ≡ request_of words.now }
    ensures apart { IfSome result (λ request. WritesApart (names_in request)) }
{
    match words {
        [name, source] if is(name, "check") && can_be_operand(source) => {
            Some(Request::Check { source })
        }
        [name, source, events]
            if is(name, "model") && can_be_operand(source) && can_be_operand(events) => {
            Some(Request::Model { source, events })
        }
        [name, a, b, c] => request_of_four(name, a, b, c),
        _ => None,
    }
}
