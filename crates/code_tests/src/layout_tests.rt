// Code with addresses: how long it may be, and how the simulator runs it.

ghost use Rattle.std.specs.Prelude.{◌≡◌, ◌<◌, ◌^◌, IfOk, replicate};
ghost use Rattle.hex_file.specs.Written.{RisesFrom};
ghost use Rattle.code_tests.specs.FourPages.{four_pages};

use code_items::{Code, Item};
use frp_tree::List;
use hex_file::Image;
use page_layout::{CodeFault, Laid, layout};
use pic_isa::Instr;
use pic_isa::registers::INTCON;
use pic_machine::Chip;
use pic_regs::Start;
use std::alloc::{AllocError, Global};
use std::test::Fail;

fn nops(alloc: Global, number: usize) -> Result<Vec<Item>, AllocError>
    ensures { IfOk result (λ v. v.items ≡ replicate number (Item.Ins Instr.Nop)) }
{
    let mut items = Vec::new(alloc);
    items.resize(number, Item::Ins(Instr::Nop))?;
    Ok(items)
}

// The layout of this number of NOPs.
fn laid_nops(alloc: Global, number: usize) -> Result<Laid, CodeFault>
    requires { number < 2 ^ 29 }
{
    let items = List::from_vec(nops(alloc, number)?);
    layout(alloc, &Code { items })
}

#[test]
fn nops_fill_program_memory(rt: HostRuntime) -> Result<(), Fail> {
    let laid = laid_nops(rt.alloc(), 8192);
    assert!(rt; laid.is_ok_and(|laid| laid.words.len() == 8192 && laid.marks.len() == 0));
    Ok(())
}

#[test]
fn one_more_is_refused(rt: HostRuntime) -> Result<(), Fail> {
    let laid = laid_nops(rt.alloc(), 8193);
    assert!(rt; laid.is_err_and(|fault| fault == CodeFault::Code(8193)));
    Ok(())
}

// Four pieces, each on a page of its own: 0 leads to 1, 1 back to 2, 2 on to 3, and 3 back to 0. The first one's first jump is
// skipped, its second isn't.
fn four_page_items(alloc: Global, gap: usize) -> Result<List<Item>, AllocError>
    ensures { IfOk result (λ items. items ≡ four_pages gap) }
{
    let first = [
        Item::Mark(0),
        Item::Ins(Instr::Btfsc { f: INTCON, b: 2 }),
        Item::Jump(3),
        Item::Ins(Instr::Btfss { f: INTCON, b: 2 }),
        Item::Jump(1),
    ];
    let nops = nops(alloc, gap)?;
    let mut items = List::new(alloc);
    items.extend_from_slice(&first)?;
    items.extend_from_slice(&nops)?;
    items.extend_from_slice(&[Item::Mark(2), Item::Jump(3)])?;
    items.extend_from_slice(&nops)?;
    items.extend_from_slice(&[Item::Mark(1), Item::Jump(2)])?;
    items.extend_from_slice(&nops)?;
    items.extend_from_slice(&[Item::Mark(3), Item::Jump(0)])?;
    Ok(items)
}

fn laid_on_four_pages(alloc: Global, gap: usize) -> Result<Laid, CodeFault>
    requires { gap < 2 ^ 26 }
    ensures { IfOk result (λ laid. RisesFrom 0 laid.words) }
{
    let items = four_page_items(alloc, gap)?;
    layout(alloc, &Code { items })
}

// The program counter after this number of steps.
fn after(chip: &mut Chip, steps: u8) -> u16 {
    for _ in 0..steps {
        let _ = chip.step(0x000, false);
    }
    chip.pc()
}

#[test]
fn jumps_reach_four_pages(rt: HostRuntime) -> Result<(), Fail> {
    let laid = laid_on_four_pages(rt.alloc(), 2100)?;
    // The first piece has 8 words, each other one 3 and each gap 2,100.
    let (first, on, back, last) = (0, 4211, 2108, 6314);
    assert!(rt; laid.marks.as_slice() == [first, on, back, last].as_slice());
    assert!(rt; laid.words.len() == 6317);
    let image = Image {
        words: laid.words,
        config: None,
        aside: List::new(rt.alloc()),
    };
    let start = Start {
        ram: [0x00; 368],
        w: 0x00,
        flags: 0x00,
    };
    let mut chip = Chip::power_on(&image, &start);
    // Two settings and a skip, then two settings, a test that doesn't skip, and a GOTO.
    assert!(rt; after(&mut chip, 3) == 4);
    assert!(rt; after(&mut chip, 4) == on);
    assert!(rt; after(&mut chip, 3) == back);
    assert!(rt; after(&mut chip, 3) == last);
    assert!(rt; after(&mut chip, 3) == first);
    Ok(())
}
