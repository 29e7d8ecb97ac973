// A text that is written from its end to its beginning.
ghost use Rattle.std.specs.Prelude.{◌≡◌, [], ◌∷◌, ◌++◌, OnOk};
ghost use Rattle.std.specs.Fmt.{decimal};
ghost use Rattle.frp_tree.specs.Cells.{literal_token};
ghost use Rattle.frp_tree.specs.Printed.{spaced};
ghost use Rattle.frp_tree.specs.declared.tokens.Token.TheVariants.{Word, Num, Mark};

use crate::marks::text_of;
use frp_tree::{List, Lit};
use std::alloc::{AllocError, Global};
use std::marker::Model;

/// A text that is written from its end to its beginning. Contracts see its bytes, in the order of the text.
#[derive(Debug, Drop)]
pub struct Backward {
    alloc: Global,
    bytes: Vec<u8>,
}

impl Model for Backward {
    ghost use Rattle.std.specs.Prelude.{ℕ, List, reverse};

    ghost Value = { List ℕ };

    ghost view = { λ text. reverse text.bytes.items };
}

impl Backward {
    /// The empty text, whose bytes will lie in this allocator's memory. Takes no memory.
    pub fn new(alloc: Global) -> Backward
        ensures { result ≡ [] }
    {
        Backward {
            alloc,
            bytes: Vec::new(alloc),
        }
    }

    /// Puts these bytes before the text.
    pub fn put(&mut self, bytes: &[u8]) -> Result<(), AllocError>
        ensures { OnOk result (self.new ≡ bytes.now ++ self.old) }
    {
        let mut front = bytes;
        'bytes: while let [rest @ .., byte] = front {
            self.bytes.push(*byte)?;
            front = rest;
        }
        Ok(())
    }

    /// Puts a number before the text.
    fn digits(&mut self, n: u16) -> Result<(), AllocError>
        ensures { OnOk result (self.new ≡ decimal n ++ self.old) }
    {
        let digits = format!(in self.alloc; "{n}")?;
        self.put(digits.as_bytes())
    }

    /// Puts a name or a keyword and a space before the text.
    pub fn word(&mut self, word: &str) -> Result<(), AllocError>
        ensures { OnOk result (self.new ≡ spaced (Word word.now ∷ []) ++ self.old) }
    {
        self.put(b" ")?;
        self.put(word.as_bytes())
    }

    /// Puts the mark of this number and a space before the text.
    pub fn mark(&mut self, number: u8) -> Result<(), AllocError>
        ensures { OnOk result (self.new ≡ spaced (Mark number ∷ []) ++ self.old) }
    {
        self.put(b" ")?;
        self.put(text_of(number).as_bytes())
    }

    /// Puts a number and a space before the text.
    pub fn number(&mut self, n: u16) -> Result<(), AllocError>
        ensures { OnOk result (self.new ≡ spaced (Num n ∷ []) ++ self.old) }
    {
        self.put(b" ")?;
        self.digits(n)
    }

    /// Puts a literal and a space before the text.
    pub fn literal(&mut self, literal: Lit) -> Result<(), AllocError>
        ensures { OnOk result (self.new ≡ spaced (literal_token literal ∷ []) ++ self.old) }
    {
        match literal {
            Lit::Plain(n) => self.number(n),
            Lit::Wide(n) => {
                self.put(b"w ")?;
                self.digits(n)
            }
            Lit::Truth(true) => self.word("true"),
            Lit::Truth(false) => self.word("false"),
        }
    }

    /// The bytes of the text, in order. Takes no memory.
    pub fn finish(self) -> List<u8>
        ensures { result ≡ self }
    {
        let mut bytes = self.bytes;
        bytes.reverse();
        List::from_vec(bytes)
    }
}
