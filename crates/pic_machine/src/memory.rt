// Program memory, decoded once.
ghost use Rattle.std.specs.Prelude.{◌≡◌, ◌<◌};
ghost use Rattle.pic_isa.specs.Instructions.{instruction_of};

use hex_file::Word;
use pic_isa::{Instr, decode};

// How many words program memory has.
const PLACES: usize = 8192;

// What a place holds that no word was written to.
const ERASED: u16 = 0x3FFF;

// A place of program memory: its word, and the instruction that the word is, which is so decoded once.
#[derive(Clone, Copy)]
pub(crate) struct Cell {
    pub(crate) word: u16,
    pub(crate) instruction: Option<Instr>,
    ghost in_range: { word < 0x4000 },
    ghost decoded: { instruction ≡ instruction_of word },
}

impl Cell {
    fn new(word: u16) -> Cell
        requires { word < 0x4000 }
        ensures { result.word ≡ word }
    {
        Cell {
            word,
            instruction: decode(word),
        }
    }
}

// Program memory, which never changes.
#[derive(Drop)]
pub(crate) struct Memory {
    cells: [Cell; PLACES],
}

impl Memory {
    ghost use Rattle.hex_file.specs.Written.{RisesFrom};
    ghost use Rattle.pic_machine.specs.Memory.{words_of};
    ghost use Rattle.pic_machine.specs.Run.{word_at};

    // The memory that these words were written to, whose addresses rise.
    pub(crate) fn load(words: &[Word]) -> Memory
        requires { RisesFrom 0 words.now }
        ensures { words_of result ≡ word_at words.now }
    {
        let mut cells = [Cell::new(ERASED); PLACES];
        for word in words {
            cells[usize::from(word.address)] = Cell::new(word.word);
        }
        Memory { cells }
    }

    pub(crate) fn at(&self, address: u16) -> &Cell
        requires { address < 8192 }
        ensures { result.now.word ≡ words_of self.now address }
    {
        &self.cells[usize::from(address)]
    }
}
