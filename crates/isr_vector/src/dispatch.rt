// From the taking of an interrupt to the run of the event that is chosen.
ghost use Rattle.std.specs.Prelude.{◌≡◌, ℕ, ◌<◌, ◌++◌, [], IfOk, OnOk, length};
ghost use Rattle.std.specs.List.{AllByRecursion};
ghost use Rattle.frp_tree.specs.Tree.{program_tree_of};
ghost use Rattle.pic_isa.specs.declared.sources.Source.{Source as AnySource};
ghost use Rattle.code_items.specs.declared.items.Item.TheVariants.{Ins};
ghost use Rattle.glue_steps.specs.Choices.{skip_of, test_items};
ghost use Rattle.isr_vector.specs.Taking.{AreSources, choice, context_saved, tests_of};

use causality::Checked;
use code_items::{Code, Item};
use glue_parts::{Context, SAVED_PCLATH, SAVED_STATUS, marks};
use glue_steps::Line;
use pic_isa::{Instr, Source};
use pic_regs::Place;
use std::alloc::{AllocError, Global};

// Saves what has to come back when what is interrupted goes on, and chooses bank 0.
pub(crate) fn save_context(alloc: Global, context: Context) -> Result<Vec<Line>, AllocError>
    ensures { IfOk result (λ lines. lines.items ≡ context_saved context) }
{
    let mut lines = Vec::new(alloc);
    if context.status {
        lines.push(Line::Load(Place::Status))?;
        lines.push(Line::Store(SAVED_STATUS))?;
        lines.push(Line::Clear(Place::Status))?;
    }
    if context.pclath {
        lines.push(Line::Load(Place::Pclath))?;
        lines.push(Line::Store(SAVED_PCLATH))?;
    }
    Ok(lines)
}

// The test of a source's flag: skips where it is clear.
fn flag_test(source: Source) -> Item
    ensures { result ≡ Ins (skip_of source) }
{
    let flag = source.flag();
    Item::Ins(Instr::Btfsc {
        f: flag.address as u8,
        b: flag.bit,
    })
}

// Adds the tests of events, each with a jump to the event's run.
fn add_tests(code: &mut Code, c: &Checked, tested: &[u8]) -> Result<(), AllocError>
    requires { AllByRecursion (λ event. event < length c.now.typed.program.events) tested.now }
    ensures { OnOk result ((source : ℕ → AnySource) → AreSources (program_tree_of c.now.typed.program) source → code.new.items ≡ code.old.items ++ test_items (tests_of source tested.now) []) }
{
    for event in tested {
        code.items.push(flag_test(c.typed().event_source(*event)))?;
        code.items.push(Item::Jump(marks::entry(*event)))?;
    }
    Ok(())
}

// Goes to the first of the events whose flag is set. The last is not tested, since a taking needs a flag: its run stands next, or
// is gone to in code of several pages.
pub(crate) fn dispatch(
    alloc: Global,
    c: &Checked,
    order: &[u8],
    pages: bool,
) -> Result<Code, AllocError>
    requires { AllByRecursion (λ event. event < length c.now.typed.program.events) order.now }
    ensures { IfOk result (λ code. (source : ℕ → AnySource) → AreSources (program_tree_of c.now.typed.program) source → code.items ≡ choice source pages order.now) }
{
    let mut code = Code::new(alloc);
    let Some((last, tested)) = order.split_last() else {
        return Ok(code);
    };
    add_tests(&mut code, c, tested)?;
    if pages {
        code.items.push(Item::Jump(marks::entry(*last)))?;
    }
    Ok(code)
}
