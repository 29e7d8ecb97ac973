// Images: the words of program memory, the configuration word, and other bytes.
use frp_tree::List;
use std::alloc::{AllocError, Global};

/// A word of program memory: its address, in words from 0, and its 14 bits.
#[derive(Clone, Copy, Debug, PartialEq, Eq)]
pub struct Word {
    pub address: u16,
    pub word: u16,
}

/// A byte of a HEX file that belongs to no program word: its address, in bytes from 4000h on.
#[derive(Clone, Copy, Debug, PartialEq, Eq)]
pub struct Aside {
    pub address: u16,
    pub byte: u8,
}

/// What a HEX file says: the words by rising address, the configuration word, where there is one, and
/// other bytes by rising address.
#[derive(Debug, Drop)]
pub struct Image {
    pub words: List<Word>,
    pub config: Option<u16>,
    pub aside: List<Aside>,
}

impl Image {
    ghost use Rattle.std.specs.Prelude.{◌≡◌, ◌≤◌, [], None, IfOk, length};
    ghost use Rattle.hex_file.specs.Words.{words_from};
    ghost use Rattle.hex_file.specs.Written.{IsWritable};

    /// The image of these words from address 0 on, 8,192 at most, of which the low 14 bits count. It has no
    /// configuration word and no other bytes. Err: out of memory.
    pub fn of_words(alloc: Global, words: &[u16]) -> Result<Image, AllocError>
        requires { length words.now ≤ 8192 }
        ensures words { IfOk result (λ image. image.words ≡ words_from 0 words.now) }
        ensures config { IfOk result (λ image. image.config ≡ None) }
        ensures aside { IfOk result (λ image. image.aside ≡ []) }
        ensures writable { IfOk result (λ image. IsWritable image) }
    {
        let mut placed = List::new(alloc);
        for (address, word) in words.iter().enumerate() {
            placed.push(Word {
                address: address as u16,
                word: *word % 0x4000,
            })?;
        }
        Ok(Image {
            words: placed,
            config: None,
            aside: List::new(alloc),
        })
    }
}
