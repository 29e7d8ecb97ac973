// Cutting a text at a byte.
ghost use Rattle.std.specs.Prelude.{◌≡◌, ◌==◌, ◌++◌, ◌∷◌, MatchOption, position};
ghost use Rattle.text_parts.specs.Cuts.{Lacks};

// The place of the first byte of this kind.
fn place_of(text: &[u8], byte: u8) -> Option<usize>
    ensures { result ≡ position (λ b. b == byte) text.now }
{
    text.iter().position(|other| *other == byte)
}

/// What stands before the first byte of this kind, and what stands after it. `None` exactly where the text has no
/// such byte.
pub fn split_once(text: &[u8], byte: u8) -> Option<(&[u8], &[u8])>
    ensures { MatchOption result
        (Lacks byte text.now)
        (λ found. Lacks byte found.0.now × (text.now ≡ found.0.now ++ (byte ∷ found.1.now))) }
{
    let at = place_of(text, byte)?;
    Some((&text[..at], &text[at + 1..]))
}
