// The instructions of items, where the address of each mark is known.

ghost use Rattle.std.specs.Prelude.{◌≡◌, ◌+◌, ◌++◌, ◌∷◌, [], ◌≤◌, ◌<◌, IfOk, OnOk, length, get_or, if◌then◌else◌, false};
ghost use Rattle.std.specs.List.{AllByRecursion};
ghost use Rattle.pic_isa.specs.Instructions.{FieldsFit};
ghost use Rattle.code_steps.specs.Jumps.{low_page, high_page, setting};
ghost use Rattle.code_items.specs.Items.{is_skip, skips};
ghost use Rattle.code_items.specs.Lines.{ahead, lines, lines_of};
ghost use Rattle.page_layout.specs.Emitted.{instructions_of, page_instructions, places, words_of};

use code_items::Item;
use frp_tree::List;
use hex_file::Word;
use pic_isa::registers::PCLATH;
use pic_isa::{Instr, encode};
use std::alloc::{AllocError, Global};

/// PCLATH's bits for pages.
const LOW_BIT: u8 = 3;

const HIGH_BIT: u8 = 4;

// The address of a mark, and 0 where it has none.
fn address(marks: &[u16], mark: u32) -> u16
    ensures { result ≡ places marks.now mark }
{
    match marks.get(mark as usize) {
        Some(address) => *address,
        None => 0,
    }
}

// The instruction that makes a bit of PCLATH what is given.
fn set_page_bit(bit: u8, value: bool) -> Instr
    ensures { result ≡ setting bit value }
{
    if value {
        Instr::Bsf { f: PCLATH, b: bit }
    } else {
        Instr::Bcf { f: PCLATH, b: bit }
    }
}

// Adds the page settings for an address, where the code has such.
fn push_settings(code: &mut List<Instr>, address: u16, paged: bool) -> Result<(), AllocError>
    ensures { OnOk result (code.new ≡ code.old ++ page_instructions paged address) }
{
    if paged {
        code.push(set_page_bit(LOW_BIT, address / 2048 % 2 == 1))?;
        code.push(set_page_bit(HIGH_BIT, address / 4096 == 1))?;
    }
    Ok(())
}

// Adds the page settings of the jump that items begin with.
fn push_ahead(
    code: &mut List<Instr>,
    rest: &[Item],
    paged: bool,
    marks: &[u16],
) -> Result<(), AllocError>
    ensures { OnOk result (code.new ≡ code.old ++ instructions_of (places marks.now) (ahead paged rest.now)) }
{
    match rest.first() {
        Some(Item::Jump(m)) => push_settings(code, address(marks, *m), paged),
        _ => Ok(()),
    }
}

/// Whether the instruction may skip the next one.
fn may_skip(i: Instr) -> bool
    ensures { result ≡ is_skip i }
{
    matches!(
        i,
        Instr::Btfsc { .. } | Instr::Btfss { .. } | Instr::Decfsz { .. } | Instr::Incfsz { .. }
    )
}

// Whether the item is an instruction that may skip the next one.
fn holds(item: Item) -> bool
    ensures { result ≡ skips item }
{
    matches!(item, Item::Ins(i) if may_skip(i))
}

// Adds a jump, with its page settings where they don't stand before a skip instruction already.
fn push_jump(
    code: &mut List<Instr>,
    mark: u32,
    held: bool,
    paged: bool,
    marks: &[u16],
) -> Result<(), AllocError>
    ensures { OnOk result (code.new ≡ code.old ++ instructions_of (places marks.now) (lines_of held paged (Item.Jump mark) [])) }
{
    let target = address(marks, mark);
    if !held {
        push_settings(code, target, paged)?;
    }
    code.push(Instr::Goto { k: target % 2048 })
}

// Adds the instructions of an item. `rest` are the items behind it, and `held` tells that a skip instruction is before it. Before
// an instruction that may skip the next one stand the page settings of a jump directly behind it.
fn push_item(
    code: &mut List<Instr>,
    item: Item,
    rest: &[Item],
    held: bool,
    paged: bool,
    marks: &[u16],
) -> Result<(), AllocError>
    ensures { OnOk result (code.new ≡ code.old ++ instructions_of (places marks.now) (lines_of held paged item (ahead paged rest.now))) }
{
    match item {
        Item::Mark(_) => Ok(()),
        Item::Ins(i) => {
            if may_skip(i) {
                push_ahead(code, rest, paged, marks)?;
            }
            code.push(i)
        }
        Item::Jump(m) => push_jump(code, m, held, paged, marks),
    }
}

/// The instructions of items.
pub fn instructions(
    alloc: Global,
    items: &[Item],
    paged: bool,
    marks: &[u16],
) -> Result<List<Instr>, AllocError>
    ensures { IfOk result (λ code. code ≡ instructions_of (places marks.now) (lines false paged items.now)) }
{
    let mut code = List::new(alloc);
    let mut held = false;
    for (i, item) in items.iter().enumerate() {
        push_item(&mut code, *item, &items[i + 1..], held, paged, marks)?;
        held = holds(*item);
    }
    Ok(code)
}

/// The words of instructions, from address 0 on.
pub fn words(alloc: Global, code: &[Instr]) -> Result<List<Word>, AllocError>
    requires short { length code.now ≤ 8192 }
    requires fit { AllByRecursion FieldsFit code.now }
    ensures { IfOk result (λ words. words ≡ words_of 0 code.now) }
{
    let mut words = List::new(alloc);
    for (at, instruction) in code.iter().enumerate() {
        words.push(Word {
            address: at as u16,
            word: encode(instruction),
        })?;
    }
    Ok(words)
}
