// The run of an event, from where its dispatch leads to its return.
ghost use Rattle.std.specs.Prelude.{◌≡◌, ◌==◌, ◌&&◌, ◌||◌, ◌++◌, ◌∷◌, [], not, if◌then◌else◌, IfOk, OnOk};
ghost use Rattle.std.specs.List.{AllByRecursion};
ghost use Rattle.frp_tree.specs.Tree.{ProgramTree};
ghost use Rattle.pic_regs.specs.declared.places.Place.TheVariants.{Intcon};
ghost use Rattle.priority_masks.specs.Levels.{AreLevelsOf};
ghost use Rattle.code_steps.specs.declared.banks.Bank.TheVariants.{Known};
ghost use Rattle.glue_steps.specs.declared.lines.Line.TheVariants.{Bit};
ghost use Rattle.glue_steps.specs.Lines.{item_of};
ghost use Rattle.scratch_commit.specs.Deeds.{DoesMore, IsStretch, LowerFlag, bank_past};
ghost use Rattle.scratch_commit.specs.Frames.{FrameNamed};
ghost use Rattle.scratch_commit.specs.Masks.{masks_of as all_masks, no_masks};
ghost use Rattle.scratch_commit.specs.Plans.{AreTermsOf, IsCodeOf, IsFrameOf, IsInstruction, IsRun, bank_at_window, beginning, clearing_page, glue, going_home, is_bottom, is_short, lock_items, locked_items, long_items, returning, short_items, starting, working};
ghost use Rattle.scratch_commit.specs.Windows.{MoveNamed, window, window_items};

use crate::frames::Frame;
use crate::kinds::Kind;
use crate::masks::{Heard, Masks};
use crate::windows::{add_marked, add_moves};
use bank_alloc::Places;
use code_items::{Code, Item};
use code_steps::Bank;
use glue_parts::{Move, REDO, Spread, Stretch, marks};
use glue_steps::{Line, add_lines};
use op_code::Coded;
use pic_isa::bits::GIE;
use pic_isa::{Instr, Source};
use pic_regs::Place;
use priority_masks::Levels;
use std::alloc::{AllocError, Global};

/// A run of an event, by its number, 0 to 10, and its source: the code of its work, which is begun in bank 0, and what its window
/// copies.
#[derive(Clone, Copy, Debug)]
pub struct Run<'a> {
    pub event: u8,
    pub source: Source,
    pub kind: Kind,
    pub levels: &'a Levels,
    pub places: &'a Places,
    pub spread: Spread,
    pub work: &'a Coded,
    pub moves: &'a [Move],
}

// What follows from the level of a run's event: the enables that it clears, where it finds again what was saved, and whether it
// interrupts nothing but the ready address.
#[derive(Clone, Copy, Debug)]
pub(crate) struct Terms {
    pub(crate) masks: Masks,
    pub(crate) frame: Frame,
    pub(crate) over_idle: bool,
}

// The enables that a run of this kind clears.
fn masks_of(kind: Kind, heard: &Heard) -> Masks
    ensures { result ≡ (if is_short kind then no_masks else all_masks heard.now) }
{
    match kind {
        Kind::Short => Masks::none(),
        _ => Masks::new(heard),
    }
}

// Whether a run of this kind, of so many levels, interrupts nothing but the ready address.
fn is_over_idle(kind: Kind, levels: u8) -> bool
    ensures { result ≡ (is_bottom kind || levels == 1) }
{
    match kind {
        Kind::Bottom => true,
        _ => levels == 1,
    }
}

// What follows from the level of the run's event.
fn terms_of(run: &Run) -> Terms
    requires { IsRun run.now }
    ensures terms { (p : ProgramTree) → AreLevelsOf p run.now.levels.now → AreTermsOf p run.now result }
    ensures named { FrameNamed result.frame }
{
    let level = run.levels.level(run.event);
    let heard = Heard::new(run.levels, level);
    let masks = masks_of(run.kind, &heard);
    let context = run.spread.context(run.levels);
    let frame = Frame::new(run.kind, level, run.places, context, masks.saved());
    Terms {
        masks,
        frame,
        over_idle: is_over_idle(run.kind, run.levels.count()),
    }
}

/// Where a run finds again what was saved of what it interrupted. Takes no memory.
pub fn frame_of(run: &Run) -> Frame
    requires { IsRun run.now }
    ensures { (p : ProgramTree) → AreLevelsOf p run.now.levels.now → IsFrameOf p run.now result }
{
    terms_of(run).frame
}

// The line that turns interrupts on or off.
fn interrupts(are_on: bool) -> Line
    ensures { result ≡ Bit are_on Intcon 7 }
{
    Line::Bit(are_on, Place::Intcon, GIE)
}

// Adds the line to the code.
fn add_interrupts(code: &mut Code, are_on: bool) -> Result<(), AllocError>
    ensures { OnOk result (code.new.items ≡ code.old.items ++ item_of (Bit are_on Intcon 7) ∷ []) }
{
    code.items.push(interrupts(are_on).item())?;
    Ok(())
}

// Up to the clearing of the event's flag, where the work comes later: the frame, the masks, bank 0, the flag.
fn start(alloc: Global, run: &Run, terms: &Terms) -> Result<Stretch, AllocError>
    requires { FrameNamed terms.now.frame }
    ensures { IfOk result (λ lines. IsStretch (Known 0) (starting run.now.kind run.now.source terms.now.masks terms.now.frame) lines) }
{
    let mut lines = Stretch::new(alloc, Bank::Known(0));
    terms.frame.save_context(run.kind, &mut lines)?;
    terms.frame.save_enables(&mut lines)?;
    terms.masks.mask(&mut lines)?;
    lines.choose(0)?;
    lines.lower(run.source)?;
    Ok(lines)
}

// With interrupts off throughout: the work, and then the clearing of the flag, directly before the window. Answers the bank.
fn add_short(code: &mut Code, alloc: Global, run: &Run) -> Result<Bank, AllocError>
    requires { AllByRecursion IsInstruction run.now.work.now.code.items }
    ensures items { OnOk result (code.new.items ≡ code.old.items ++ short_items run.now.source run.now.work.now.code.items run.now.work.now.bank) }
    ensures bank { IfOk result (λ bank. bank ≡ bank_past run.now.work.now.bank (LowerFlag run.now.source ∷ [])) }
{
    code.append(&run.work.code, 0)?;
    let mut flag = Stretch::new(alloc, run.work.bank);
    flag.lower(run.source)?;
    add_lines(code, &flag.lines)?;
    Ok(flag.bank)
}

// With interrupts on in the work, in which none is heard. Answers the bank.
fn add_long(code: &mut Code, alloc: Global, run: &Run, terms: &Terms) -> Result<Bank, AllocError>
    requires named { FrameNamed terms.now.frame }
    requires work { AllByRecursion IsInstruction run.now.work.now.code.items }
    ensures items { OnOk result (code.new.items ≡ code.old.items
        ++ long_items (glue (Known 0) (starting run.now.kind run.now.source terms.now.masks terms.now.frame)) run.now.work.now.code.items) }
    ensures bank { IfOk result (λ bank. bank ≡ run.now.work.now.bank) }
{
    add_lines(code, &start(alloc, run, terms)?.lines)?;
    add_interrupts(code, true)?;
    code.append(&run.work.code, 0)?;
    add_interrupts(code, false)?;
    Ok(run.work.bank)
}

// Turns interrupts on for work from the present state, in bank 0, whatever bank the work before has left.
fn begin(alloc: Global, bank: Bank) -> Result<Stretch, AllocError>
    ensures { IfOk result (λ lines. IsStretch bank beginning lines) }
{
    let mut lines = Stretch::new(alloc, bank);
    lines.choose(0)?;
    lines.write(REDO, 0)?;
    lines.add(interrupts(true))?;
    Ok(lines)
}

// Turns interrupts off, again where one came late and its return turned them on; and begins again where a run has committed
// meanwhile.
fn add_lock(code: &mut Code, event: u8) -> Result<(), AllocError>
    ensures { OnOk result (code.new.items ≡ code.old.items ++ lock_items event) }
{
    code.items.extend_from_slice(&[
        Item::Mark(marks::lock(event)),
        interrupts(false).item(),
        Line::Skip(false, Place::Intcon, GIE).item(),
        Item::Jump(marks::lock(event)),
        Line::Skip(false, REDO, 0).item(),
        Item::Jump(marks::again(event)),
    ])
}

// With interrupts on in the work, and a lock behind it. Answers the bank.
fn add_locked(code: &mut Code, alloc: Global, run: &Run, terms: &Terms) -> Result<Bank, AllocError>
    requires named { FrameNamed terms.now.frame }
    requires work { AllByRecursion IsInstruction run.now.work.now.code.items }
    ensures items { OnOk result (code.new.items ≡ code.old.items
        ++ locked_items run.now.event (glue (Known 0) (starting run.now.kind run.now.source terms.now.masks terms.now.frame)) run.now.work.now.code.items run.now.work.now.bank) }
    ensures bank { IfOk result (λ bank. bank ≡ run.now.work.now.bank) }
{
    add_lines(code, &start(alloc, run, terms)?.lines)?;
    code.items.push(Item::Mark(marks::again(run.event)))?;
    add_lines(code, &begin(alloc, run.work.bank)?.lines)?;
    code.append(&run.work.code, 0)?;
    add_lock(code, run.event)?;
    Ok(run.work.bank)
}

// Adds a run up to its window, and answers the bank.
fn add_work(code: &mut Code, alloc: Global, run: &Run, terms: &Terms) -> Result<Bank, AllocError>
    requires named { FrameNamed terms.now.frame }
    requires work { AllByRecursion IsInstruction run.now.work.now.code.items }
    ensures items { OnOk result (code.new.items ≡ code.old.items
        ++ working run.now.kind run.now.event run.now.source terms.now.masks terms.now.frame run.now.work.now.code.items run.now.work.now.bank) }
    ensures bank { IfOk result (λ bank. bank ≡ bank_at_window run.now.kind run.now.source run.now.work.now.bank) }
{
    match run.kind {
        Kind::Short => add_short(code, alloc, run),
        Kind::Long => add_long(code, alloc, run, terms),
        Kind::Bottom | Kind::Middle => add_locked(code, alloc, run, terms),
    }
}

// Adds the window, begun in this bank, and answers the bank behind it.
fn add_window(
    code: &mut Code,
    alloc: Global,
    run: &Run,
    over_idle: bool,
    bank: Bank,
) -> Result<Bank, AllocError>
    requires { AllByRecursion MoveNamed run.now.moves.now }
    ensures items { OnOk result (code.new.items ≡ code.old.items ++ window_items run.now.event bank (window run.now.moves.now (not over_idle))) }
    ensures bank { IfOk result (λ behind. behind ≡ bank_past bank (window run.now.moves.now (not over_idle))) }
{
    let mut lines = Stretch::new(alloc, bank);
    add_moves(&mut lines, run.moves, !over_idle)?;
    code.items.push(Item::Mark(marks::opening(run.event)))?;
    add_marked(code, marks::committing(run.event), &lines.lines)?;
    Ok(lines.bank)
}

// Clears PCLATH in code of several pages, where nothing but the ready address is interrupted.
fn clear_page(lines: &mut Stretch, pages: bool, over_idle: bool) -> Result<(), AllocError>
    ensures { OnOk result (DoesMore lines.old (clearing_page (pages && over_idle)) lines.new) }
{
    if pages && over_idle {
        lines.write(Place::Pclath, 0)?;
    }
    Ok(())
}

// Chooses bank 0, where STATUS isn't brought back.
fn go_home(lines: &mut Stretch, status: Option<Place>) -> Result<(), AllocError>
    ensures { OnOk result (DoesMore lines.old (going_home status) lines.new) }
{
    if status.is_none() {
        lines.choose(0)?;
    }
    Ok(())
}

// Behind the window: enables, PCLATH and the bank bits become what they were in what was interrupted.
fn leave(alloc: Global, terms: &Terms, pages: bool, bank: Bank) -> Result<Stretch, AllocError>
    requires { FrameNamed terms.now.frame }
    ensures { IfOk result (λ lines. IsStretch bank (returning terms.now.masks terms.now.frame (pages && terms.now.over_idle)) lines) }
{
    let mut lines = Stretch::new(alloc, bank);
    terms.frame.unmask(&terms.masks, &mut lines)?;
    clear_page(&mut lines, pages, terms.over_idle)?;
    terms.frame.bring_back(&mut lines)?;
    go_home(&mut lines, terms.frame.status)?;
    Ok(lines)
}

/// The code of a run. An `Err` is out of memory.
pub fn run_of(alloc: Global, run: &Run) -> Result<Code, AllocError>
    requires { IsRun run.now }
    ensures { IfOk result (λ code. (p : ProgramTree) → AreLevelsOf p run.now.levels.now → IsCodeOf p run.now code.items) }
{
    let terms = terms_of(run);
    let mut code = Code::new(alloc);
    code.items.push(Item::Mark(marks::entry(run.event)))?;
    let bank = add_work(&mut code, alloc, run, &terms)?;
    let bank = add_window(&mut code, alloc, run, terms.over_idle, bank)?;
    let end = leave(alloc, &terms, run.spread.pages, bank)?;
    add_lines(&mut code, &end.lines)?;
    code.items.push(Item::Ins(Instr::Retfie))?;
    Ok(code)
}
