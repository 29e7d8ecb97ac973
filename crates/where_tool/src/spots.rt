// The line of a text in which a place is.
ghost use Rattle.std.specs.Prelude.{◌≡◌, ◌≤◌, ◌==◌, length, count_by, if◌then◌else◌};
ghost use Rattle.where_tool.specs.Spots.{IsSpot};
ghost use Rattle.where_tool.specs.SpotParts.{IsLineStart, IsRestOfLine};

use text_parts::split_once;

/// A place in a text: the number of its line, from 1 on, and the bytes of this line before the place, and from it on.
#[derive(Clone, Copy, Debug)]
pub struct Spot<'a> {
    pub line: usize,
    pub front: &'a [u8],
    pub back: &'a [u8],
}

// How many lines end in these bytes.
fn line_ends(bytes: &[u8]) -> usize
    ensures { result ≡ count_by (λ b. b == 10) bytes.now }
{
    bytes.iter().filter(|byte| **byte == b'\n').count()
}

// Where the line begins in which a byte ends: behind the byte, where it is a LF.
fn start_behind(byte: u8, behind: usize, start: usize) -> usize
    ensures { result ≡ if byte == 10 then behind else start }
{
    if byte == b'\n' { behind } else { start }
}

// How many bytes stand up to the last LF, and with it.
fn line_start(before: &[u8]) -> usize
    ensures { IsLineStart before.now result }
{
    let mut start = 0;
    for (i, byte) in before.iter().enumerate() {
        start = start_behind(*byte, i + 1, start);
    }
    start
}

// The bytes up to the next LF, or all.
fn rest_of_line(rest: &[u8]) -> &[u8]
    ensures { IsRestOfLine rest.now result.now }
{
    match split_once(rest, b'\n') {
        Some((line, _)) => line,
        None => rest,
    }
}

/// The spot of a place of the text, which is at most its length.
pub fn spot_of(text: &[u8], place: usize) -> Spot<'_>
    requires { place ≤ length text.now }
    ensures { IsSpot text.now place result.line result.front.now result.back.now }
{
    let before = &text[..place];
    let start = line_start(before);
    let above = line_ends(&before[..start]);
    let back = rest_of_line(&text[place..]);
    Spot {
        line: above + 1,
        front: &before[start..],
        back,
    }
}
