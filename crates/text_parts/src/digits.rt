// Digits, one by one.
ghost use Rattle.std.specs.Prelude.{◌≡◌, ◌≢◌, ℕ, ◌<◌, MatchOption, IsTrue, false};
ghost use Rattle.std.specs.List.{list_all};
ghost use Rattle.text_parts.specs.Bytes.{is_hex_digit};
ghost use Rattle.text_parts.specs.Digits.{hex_digit};
ghost use Rattle.text_parts.specs.Numbers.{digit_value};

/// Whether these bytes are hexadecimal digits, of either case.
pub fn are_hex_digits(bytes: &[u8]) -> bool
    ensures { result ≡ list_all is_hex_digit bytes.now }
{
    bytes.iter().all(|byte| byte.is_ascii_hexdigit())
}

/// What a hexadecimal digit of either case stands for.
pub fn digit_value(digit: u8) -> u8
    requires { IsTrue (is_hex_digit digit) }
    ensures value { result ≡ digit_value digit }
    ensures below { result < 16 }
{
    match digit {
        b'0'..=b'9' => digit - b'0',
        b'A'..=b'F' => digit - b'A' + 10,
        _ => digit - b'a' + 10,
    }
}

/// What the byte stands for as a hexadecimal digit of either case. `None` exactly where it is none.
pub fn hex_digit_in(byte: u8) -> Option<u8>
    ensures { MatchOption result (is_hex_digit byte ≡ false) (λ value. IsTrue (is_hex_digit byte) × (value ≡ digit_value byte) × (value < 16)) }
{
    if byte.is_ascii_hexdigit() {
        Some(digit_value(byte))
    } else {
        None
    }
}

/// What the byte stands for as an upper-case hexadecimal digit. `None` exactly where it is none.
pub fn upper_hex_digit_in(byte: u8) -> Option<u8>
    ensures { MatchOption result
        ((d : ℕ) → d < 16 → byte ≢ hex_digit d)
        (λ d. (d < 16) × (byte ≡ hex_digit d)) }
{
    match byte {
        b'0'..=b'9' => Some(byte - b'0'),
        b'A'..=b'F' => Some(byte - b'A' + 10),
        _ => None,
    }
}
