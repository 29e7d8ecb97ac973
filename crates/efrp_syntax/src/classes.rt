// Classes of bytes, and how far a text goes on in one.
ghost use Rattle.std.specs.Prelude.{◌≡◌};
ghost use Rattle.std.specs.List.{prefix_len};
ghost use Rattle.frp_tree.specs.Tokens.{is_blank};
ghost use Rattle.text_parts.specs.Bytes.{begins};
ghost use Rattle.efrp_syntax.specs.Pieces.{is_in, IsRun};

use text_parts::is_word_byte;

/// Classes of bytes.
#[derive(Clone, Copy, Debug, PartialEq, Eq)]
pub enum Class {
    /// Letters, digits and `_`.
    Word,
    Digit,
    HexDigit,
    /// All but the end of a line.
    Line,
}

impl Class {
    pub fn has(self, byte: u8) -> bool
        ensures { result ≡ is_in self byte }
    {
        match self {
            Class::Word => is_word_byte(byte),
            Class::Digit => byte.is_ascii_digit(),
            Class::HexDigit => byte.is_ascii_hexdigit(),
            Class::Line => byte != b'\n',
        }
    }

    /// How many bytes at the beginning of the text belong to the class.
    pub fn count(self, text: &[u8]) -> usize
        ensures { result ≡ prefix_len (is_in self) text.now }
    {
        text.iter().take_while(|byte| self.has(**byte)).count()
    }

    /// The bytes at the beginning that belong to the class, and what follows them.
    pub fn run(self, text: &[u8]) -> (&[u8], &[u8])
        ensures { IsRun (is_in self) text.now result.0.now result.1.now }
    {
        text.split_at(self.count(text))
    }

    /// Whether the text begins with a byte of the class.
    pub fn begins(self, text: &[u8]) -> bool
        ensures { result ≡ begins (is_in self) text.now }
    {
        match text.first() {
            Some(byte) => self.has(*byte),
            None => false,
        }
    }
}

pub fn is_blank(byte: u8) -> bool
    ensures { result ≡ is_blank byte }
{
    matches!(byte, b' ' | b'\t' | b'\r' | b'\n')
}
