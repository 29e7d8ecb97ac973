// The vector's two pieces of code.
ghost use Rattle.std.specs.Prelude.{◌≡◌, ℕ, ◌<◌, ◌≤◌, ◌++◌, ◌∷◌, [], IfOk, length, map};
ghost use Rattle.std.specs.List.{AllByRecursion};
ghost use Rattle.frp_tree.specs.Tree.{program_tree_of};
ghost use Rattle.efrp_meaning.specs.Bounds.{state_bytes};
ghost use Rattle.pic_isa.specs.declared.sources.Source.{Source as AnySource};
ghost use Rattle.priority_masks.specs.declared.tables.Enables.{Enables as AnyEnables};
ghost use Rattle.priority_masks.specs.Levels.{AreLevelsOf};
ghost use Rattle.code_items.specs.declared.items.Item.TheVariants.{Mark};
ghost use Rattle.glue_steps.specs.Lines.{LineNamed, item_of};
ghost use Rattle.glue_parts.specs.Heard.{IsHeardAt};
ghost use Rattle.glue_parts.specs.Marks.{Boot, Ready, mark};
ghost use Rattle.isr_vector.specs.Taking.{AreSources, context_of, taking_items};
ghost use Rattle.isr_vector.specs.Vector.{IsVector, own_goto, turns_on};

use crate::boot::{FIRST_LINES, boot_lines};
use crate::dispatch::{dispatch, save_context};
use bank_alloc::Places;
use causality::Checked;
use code_items::{Code, Item};
use glue_parts::{Spread, marks};
use glue_steps::{Line, add_lines};
use page_layout::count_words;
use pic_isa::Instr;
use pic_isa::bits::GIE;
use pic_regs::Place;
use priority_masks::Levels;
use std::alloc::{AllocError, Global};

/// The vector: `head`, which stands at address 0, with the first lines of the boot and, from address 4 on, the dispatch; and
/// `boot`, the rest of the boot up to the ready address.
///
/// In code of one page the run of the least urgent event stands directly behind `head`, and `boot` anywhere. In code of several
/// pages `boot` stands directly behind `head`, and so in the first page.
#[derive(Debug, Drop)]
pub struct VectorCode {
    pub head: Code,
    pub boot: Code,
}

/// The address of the instruction that runs after the taking of an interrupt.
const TAKEN: u16 = 4;

// Goes to a place of the vector's: to its mark, or to its address where a jump would have page settings.
fn goto(pages: bool, mark: u32, address: u16) -> Item
    ensures { result ≡ own_goto pages mark address }
{
    if pages {
        Item::Ins(Instr::Goto { k: address })
    } else {
        Item::Jump(mark)
    }
}

// What runs from the taking of an interrupt on.
fn taking(
    alloc: Global,
    c: &Checked,
    levels: &Levels,
    order: &[u8],
    spread: Spread,
) -> Result<Code, AllocError>
    requires levels { AreLevelsOf (program_tree_of c.now.typed.program) levels.now }
    requires events { AllByRecursion (λ event. event < length c.now.typed.program.events) order.now }
    ensures { IfOk result (λ code. (source : ℕ → AnySource) → AreSources (program_tree_of c.now.typed.program) source → code.items ≡ taking_items source (context_of (program_tree_of c.now.typed.program) spread) spread.pages order.now) }
{
    let context = save_context(alloc, spread.context(levels))?;
    let tests = dispatch(alloc, c, order, spread.pages)?;
    let mut code = Code::new(alloc);
    add_lines(&mut code, &context)?;
    code.items.extend_from_slice(tests.items.as_slice())?;
    Ok(code)
}

fn head(alloc: Global, first: &[Line], to_boot: Item, taking: &Code) -> Result<Code, AllocError>
    requires { AllByRecursion LineNamed first.now }
    ensures { IfOk result (λ code. code.items ≡ map item_of first.now ++ to_boot ∷ taking.now.items) }
{
    let mut code = Code::new(alloc);
    add_lines(&mut code, first)?;
    code.items.push(to_boot)?;
    code.items.extend_from_slice(taking.items.as_slice())?;
    Ok(code)
}

// Turns interrupts on directly before the ready address, a jump to itself.
fn boot(alloc: Global, rest: &[Line], to_ready: Item) -> Result<Code, AllocError>
    requires { AllByRecursion LineNamed rest.now }
    ensures { IfOk result (λ code. code.items ≡ Mark (mark Boot) ∷ map item_of rest.now ++ (item_of turns_on ∷ Mark (mark Ready) ∷ to_ready ∷ [])) }
{
    let mut code = Code::new(alloc);
    code.items.push(Item::Mark(marks::BOOT))?;
    add_lines(&mut code, rest)?;
    add_lines(&mut code, &[Line::Bit(true, Place::Intcon, GIE)])?;
    code.items.push(Item::Mark(marks::READY))?;
    code.items.push(to_ready)?;
    Ok(code)
}

/// The vector of a program with these levels, the bytes of whose states are placed. Events are tested in the order that is given,
/// which has no more than 11. An `Err` is out of memory.
pub fn vector(
    alloc: Global,
    c: &Checked,
    levels: &Levels,
    places: &Places,
    order: &[u8],
    spread: Spread,
) -> Result<VectorCode, AllocError>
    requires levels { AreLevelsOf (program_tree_of c.now.typed.program) levels.now }
    requires placed { state_bytes (program_tree_of c.now.typed.program) ≤ places.now.need.states }
    requires events { AllByRecursion (λ event. event < length c.now.typed.program.events) order.now }
    requires few { length order.now ≤ 11 }
    ensures { IfOk result (λ code. (enables : AnyEnables) × IsHeardAt (program_tree_of c.now.typed.program) 0 enables × ((source : ℕ → AnySource) → AreSources (program_tree_of c.now.typed.program) source → IsVector (program_tree_of c.now.typed.program) places.now.need enables source order.now spread code)) }
{
    let lines = boot_lines(alloc, c, levels, places)?;
    let (first, rest) = lines.as_slice().split_at(FIRST_LINES);
    let taking = taking(alloc, c, levels, order, spread)?;
    let boot_at = TAKEN + count_words(taking.items.as_slice(), true) as u16;
    let ready_at = boot_at + rest.len() as u16 + 1;
    let to_boot = goto(spread.pages, marks::BOOT, boot_at);
    let to_ready = goto(spread.pages, marks::READY, ready_at);
    Ok(VectorCode {
        head: head(alloc, first, to_boot, &taking)?,
        boot: boot(alloc, rest, to_ready)?,
    })
}
