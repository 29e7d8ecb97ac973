// The words of code, and its refusals.

ghost use Rattle.std.specs.Prelude.{◌≡◌, ℕ, ◌≤◌, ◌<◌, ◌^◌, ◌%◌, Err, IfOk, IfErr, get_or, length, true};
ghost use Rattle.std.specs.List.{AllByRecursion};
ghost use Rattle.hex_file.specs.Written.{RisesFrom};
ghost use Rattle.pic_machine.specs.Run.{word_at};
ghost use Rattle.code_items.specs.Items.{ItemFits, OnceEach, has_pages, times, words_in};
ghost use Rattle.code_items.specs.Lines.{Stands};
ghost use Rattle.page_layout.specs.Emitted.{places};
ghost use Rattle.page_layout.specs.Faults.{IsFaultOf};
ghost use Rattle.page_layout.specs.Marks.{marks_end};
ghost use Rattle.page_layout.specs.Words.{FollowFrom};

use crate::counts::count_words;
use crate::emitted::{instructions, words};
use crate::mark_places::mark_places;
use code_items::{Code, Item};
use frp_tree::List;
use hex_file::Word;
use std::alloc::{AllocError, Global};

/// The words of a code, from address 0 on, and the address of each mark at its place, 0 at a number that is no mark.
#[derive(Debug, Drop)]
pub struct Laid {
    pub words: List<Word>,
    pub marks: List<u16>,
}

/// Why code has no words: it would be more than 8,192, with their number, or memory did not suffice.
#[derive(Clone, Copy, Debug, PartialEq, Eq)]
pub enum CodeFault {
    Code(u32),
    Memory,
}

impl From<AllocError> for CodeFault {
    ghost use Rattle.std.specs.Prelude.{◌≡◌};
    ghost use Rattle.page_layout.specs.declared.laid.CodeFault.TheVariants.{Memory};

    ghost from_gives = { λ _ fault. fault ≡ Memory };

    fn from(_error: AllocError) -> CodeFault {
        CodeFault::Memory
    }
}

/// The words of program memory, at most 8,192.
const WORDS: u32 = 8192;

/// The words of a page.
const PAGE: u32 = 2048;

// The words of items that have at most 8,192.
fn place(alloc: Global, items: &[Item], paged: bool) -> Result<Laid, AllocError>
    requires few { words_in paged items.now ≤ 8192 }
    requires fit { AllByRecursion ItemFits items.now }
    requires once { OnceEach items.now }
    ensures stands { IfOk result (λ laid. Stands paged (word_at laid.words) (places laid.marks) 0 items.now (length laid.words % 8192)) }
    ensures follow { IfOk result (λ laid. FollowFrom 0 laid.words) }
    ensures rise { IfOk result (λ laid. RisesFrom 0 laid.words) }
    ensures number { IfOk result (λ laid. length laid.words ≡ words_in paged items.now) }
    ensures absent { IfOk result (λ laid. (m : ℕ) → times m items.now ≡ 0 → places laid.marks m ≡ 0) }
    ensures marks { IfOk result (λ laid. length laid.marks ≡ marks_end items.now) }
{
    let marks = mark_places(alloc, items, paged)?;
    let code = instructions(alloc, items, paged, &marks)?;
    Ok(Laid {
        words: words(alloc, code.as_slice())?,
        marks: List::from_vec(marks),
    })
}

/// Lays code out from address 0 on. Code of at most 2,048 instructions and jumps has one word for each; other code has page
/// settings, two words before the GOTO of each jump, or before a skip instruction directly before the jump. A mark has the
/// address of the next word, modulo 8,192.
///
/// `Code(n)` comes exactly where the code would have n words, more than 8,192. `Memory`: out of memory.
pub fn layout(alloc: Global, code: &Code) -> Result<Laid, CodeFault>
    requires few { length code.now.items < 2 ^ 29 }
    requires fit { AllByRecursion ItemFits code.now.items }
    requires once { OnceEach code.now.items }
    ensures stands { IfOk result (λ laid. Stands (has_pages code.now.items) (word_at laid.words) (places laid.marks) 0 code.now.items (length laid.words % 8192)) }
    ensures follow { IfOk result (λ laid. FollowFrom 0 laid.words) }
    ensures rise { IfOk result (λ laid. RisesFrom 0 laid.words) }
    ensures number { IfOk result (λ laid. length laid.words ≡ words_in (has_pages code.now.items) code.now.items) }
    ensures absent { IfOk result (λ laid. (m : ℕ) → times m code.now.items ≡ 0 → places laid.marks m ≡ 0) }
    ensures marks { IfOk result (λ laid. length laid.marks ≡ marks_end code.now.items) }
    ensures refused { IfErr result (IsFaultOf code.now.items) }
    ensures too_long { 8192 < words_in (has_pages code.now.items) code.now.items → result ≡ Err (CodeFault.Code (words_in (has_pages code.now.items) code.now.items)) }
{
    let items = code.items.as_slice();
    let paged = PAGE < count_words(items, false);
    let number = count_words(items, paged);
    if WORDS < number {
        return Err(CodeFault::Code(number));
    }
    Ok(place(alloc, items, paged)?)
}
