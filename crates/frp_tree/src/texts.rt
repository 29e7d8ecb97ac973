// A text that is owned.
ghost use Rattle.std.specs.Prelude.{◌≡◌, IfOk};

use std::alloc::{AllocError, Global};
use std::marker::Model;

/// A text that is owned: names of events, definitions, sources, registers and ports, and the words of
/// a command. Contracts see its bytes, which are UTF-8.
#[derive(Debug, Drop)]
pub struct Text {
    inner: String,
}

impl Model for Text {
    ghost use Rattle.std.specs.Prelude.{ℕ, List, string_bytes};

    ghost Value = { List ℕ };

    ghost view = { λ t. string_bytes t.inner };
}

impl Text {
    /// A text of its own with these bytes. An `Err` is out of memory.
    pub fn new(alloc: Global, s: &str) -> Result<Text, AllocError>
        ensures { IfOk result (λ t. t ≡ s.now) }
    {
        Ok(Text {
            inner: String::from_str(alloc, s)?,
        })
    }

    /// A second text with the same bytes. An `Err` is out of memory.
    pub fn copy(&self, alloc: Global) -> Result<Text, AllocError>
        ensures { IfOk result (λ t. t ≡ self.now) }
    {
        Text::new(alloc, self.as_str())
    }

    /// The bytes, as text. Takes no memory.
    pub fn as_str(&self) -> &str
        ensures { result.now ≡ self.now }
    {
        self.inner.as_str()
    }
}
