// The code of firmware: head, boot and the run of each event, put together.
ghost use Rattle.std.specs.Prelude.{◌≡◌, ℕ, ◌-◌, ◌<◌, ◌++◌, true, false, min, nat_le, nat_lt, map, length, replicate, reverse, IfOk, OnOk};
ghost use Rattle.std.specs.List.{AllByRecursion};
ghost use Rattle.pic_isa.specs.declared.instructions.Instr.TheVariants.{Nop};
ghost use Rattle.pic_isa.specs.declared.sources.Source.{Source as AnySource};
ghost use Rattle.bank_alloc.specs.Needs.{bytes_of};
ghost use Rattle.glue_parts.specs.declared.spread.Spread.{Spread as AnySpread};
ghost use Rattle.code_items.specs.declared.items.Item.TheVariants.{Ins};
ghost use Rattle.code_items.specs.Items.{has_pages, words_in, words_of_item};
ghost use Rattle.code_items.specs.Places.{joined};
ghost use Rattle.firmware_parts.specs.Times.{short_work};
ghost use Rattle.isr_vector.specs.Taking.{AreSources};
ghost use Rattle.priority_masks.specs.Levels.{AreLevelsOf};
ghost use Rattle.scratch_commit.specs.Plans.{IsRun, frame_in};
ghost use Rattle.firmware_layout.specs.Codes.{AreParts, IsRunFor, makings_of, program_in};
ghost use Rattle.firmware_layout.specs.Made.{IsSpread};
ghost use Rattle.firmware_layout.specs.Pieces.{items_of, kind_of, plan_in, run_of as run_items_of};

use bank_alloc::Places;
use causality::Checked;
use code_items::{Code, Item};
use event_code::Work;
use glue_parts::Spread;
use isr_vector::{by_urgency, vector};
use pic_isa::Instr;
use priority_masks::Levels;
use scratch_commit::{Frame, Kind, Run, frame_of, run_of};
use std::alloc::{AllocError, Global};

/// What the code of firmware is made of: a checked program with its levels, the places of the bytes that it keeps, and the work of
/// each event, by its number.
#[derive(Clone, Copy, Debug)]
pub struct Parts<'a> {
    pub c: &'a Checked,
    pub levels: &'a Levels,
    pub places: &'a Places,
    pub works: &'a [Work],
}

/// The most instructions that the work of a short run has: so many, and so many more for each event.
const SHORT_WORK: usize = 40;

const SHORT_WORK_OF_AN_EVENT: usize = 12;

/// The bytes of bank 0 for cells.
const BANK_BYTES: u32 = 80;

/// The words of a page.
const PAGE: u32 = 2048;

// The words of an item in code of one page.
fn words_of(item: Item) -> u32
    ensures { result ≡ words_of_item false item }
{
    match item {
        Item::Mark(_) => 0,
        _ => 1,
    }
}

// How many words items have in code of one page, where they are no more than a page has, and else one more than that.
fn count_to_page(items: &[Item]) -> u32
    ensures { result ≡ min (words_in false items.now) 2049 }
{
    let mut count = 0;
    for item in items {
        count = (count + words_of(*item)).min(PAGE + 1);
    }
    count
}

// Adds NOPs, so that there are more instructions than fit into a page.
fn fill_up(code: &mut Code) -> Result<(), AllocError>
    ensures { OnOk result (code.new.items ≡ code.old.items ++ replicate (2049 - words_in false code.old.items) (Ins Nop)) }
{
    let missing = PAGE + 1 - count_to_page(code.items.as_slice());
    for _ in 0..missing {
        code.items.push(Item::Ins(Instr::Nop))?;
    }
    Ok(())
}

impl Parts<'_> {
    // Whether the work of an event is short enough for interrupts to stay off in its whole run.
    fn is_short(&self, event: u8) -> bool
        requires parts { AreParts self.now }
        requires event { event < self.now.levels.now.events }
        ensures { (spread : AnySpread) (source : ℕ → AnySource) → result ≡ nat_le (length ((makings_of self.now spread source).work event)) (short_work (program_in self.now)) }
    {
        let most = SHORT_WORK + SHORT_WORK_OF_AN_EVENT * self.works.len();
        self.works[event as usize].coded.code.items.len() <= most
    }

    // How the run of an event treats interrupts.
    fn kind(&self, event: u8) -> Kind
        requires parts { AreParts self.now }
        requires event { event < self.now.levels.now.events }
        ensures { (spread : AnySpread) (source : ℕ → AnySource) → result ≡ kind_of (makings_of self.now spread source) event }
    {
        let level = self.levels.level(event);
        if level < self.levels.count() {
            if level == 1 {
                Kind::Bottom
            } else {
                Kind::Middle
            }
        } else if self.is_short(event) {
            Kind::Short
        } else {
            Kind::Long
        }
    }

    // The run of an event.
    fn run(&self, event: u8, spread: Spread) -> Run<'_>
        requires parts { AreParts self.now }
        requires event { event < self.now.levels.now.events }
        ensures run { IsRun result }
        ensures levels { AreLevelsOf (program_in self.now) result.levels.now }
        ensures source { (source : ℕ → AnySource) → AreSources (program_in self.now) source → result.source ≡ source event }
        ensures plan { (source : ℕ → AnySource) → IsRunFor (makings_of self.now spread source) event result }
    {
        let work = &self.works[event as usize];
        Run {
            event,
            source: self.c.typed().event_source(event),
            kind: self.kind(event),
            levels: self.levels,
            places: self.places,
            spread,
            work: &work.coded,
            moves: work.moves.as_slice(),
        }
    }

    // Adds the run of an event.
    fn add_run(
        &self,
        code: &mut Code,
        alloc: Global,
        event: u8,
        spread: Spread,
    ) -> Result<(), AllocError>
        requires parts { AreParts self.now }
        requires event { event < self.now.levels.now.events }
        ensures { OnOk result ((source : ℕ → AnySource) → AreSources (program_in self.now) source → code.new.items ≡ code.old.items ++ run_items_of (makings_of self.now spread source) event) }
    {
        let run = run_of(alloc, &self.run(event, spread))?;
        code.items.extend_from_slice(run.items.as_slice())
    }

    // Adds the runs of events, the last of the order first.
    fn add_runs(
        &self,
        code: &mut Code,
        alloc: Global,
        order: &[u8],
        spread: Spread,
    ) -> Result<(), AllocError>
        requires parts { AreParts self.now }
        requires events { AllByRecursion (λ event. event < self.now.levels.now.events) order.now }
        ensures { OnOk result ((source : ℕ → AnySource) → AreSources (program_in self.now) source → code.new.items ≡ code.old.items ++ joined (map (run_items_of (makings_of self.now spread source)) (reverse order.now))) }
    {
        for k in (0..order.len()).rev() {
            self.add_run(code, alloc, order[k], spread)?;
        }
        Ok(())
    }

    // The code of one page, or of several. In the first the rest of the boot stands at the end, and in the second before the runs.
    fn code_on(&self, alloc: Global, spread: Spread) -> Result<Code, AllocError>
        requires { AreParts self.now }
        ensures items { IfOk result (λ code. (source : ℕ → AnySource) → AreSources (program_in self.now) source → code.items ≡ items_of (makings_of self.now spread source)) }
        ensures pages { IfOk result (λ code. spread.pages ≡ true → has_pages code.items ≡ true) }
    {
        let order = by_urgency(alloc, self.levels, self.works.len() as u8)?;
        let vector = vector(alloc, self.c, self.levels, self.places, &order, spread)?;
        let mut code = vector.head;
        if !spread.pages {
            self.add_runs(&mut code, alloc, &order, spread)?;
            code.items.extend_from_slice(vector.boot.items.as_slice())?;
            return Ok(code);
        }
        code.items.extend_from_slice(vector.boot.items.as_slice())?;
        self.add_runs(&mut code, alloc, &order, spread)?;
        fill_up(&mut code)?;
        Ok(code)
    }

    // How far code is spread, with page settings or without: to cells outside bank 0 where the bytes don't fit into it.
    fn spread(&self, pages: bool) -> Spread
        ensures banks { result.banks ≡ nat_lt 80 (bytes_of self.now.places.now.need) }
        ensures pages { result.pages ≡ pages }
    {
        let need = self.places.needs();
        let bytes = need.states + need.scratch + 6 * u32::from(need.levels);
        Spread {
            banks: bytes > BANK_BYTES,
            pages,
        }
    }

    /// The code, and how far it is spread: it has page settings just where it doesn't fit into one page, and cells outside bank 0
    /// where they don't fit into that. An `Err` is out of memory.
    pub fn code(&self, alloc: Global) -> Result<(Code, Spread), AllocError>
        requires { AreParts self.now }
        ensures items { IfOk result (λ made. (source : ℕ → AnySource) → AreSources (program_in self.now) source → made.0.items ≡ items_of (makings_of self.now made.1 source)) }
        ensures pages { IfOk result (λ made. made.1.pages ≡ has_pages made.0.items) }
        ensures banks { IfOk result (λ made. made.1.banks ≡ nat_lt 80 (bytes_of self.now.places.now.need)) }
        ensures spread { IfOk result (λ made. (source : ℕ → AnySource) → AreSources (program_in self.now) source → IsSpread (makings_of self.now made.1 source)) }
    {
        let on_one_page = self.spread(false);
        let code = self.code_on(alloc, on_one_page)?;
        if count_to_page(code.items.as_slice()) <= PAGE {
            return Ok((code, on_one_page));
        }
        let on_several = self.spread(true);
        Ok((self.code_on(alloc, on_several)?, on_several))
    }

    /// Where the run of an event, by its number, finds again what was saved of what it interrupted, in code that is spread so far.
    /// Takes no memory.
    pub fn frame(&self, event: u8, spread: Spread) -> Frame
        requires parts { AreParts self.now }
        requires event { event < self.now.levels.now.events }
        ensures { (source : ℕ → AnySource) → result ≡ frame_in (plan_in (makings_of self.now spread source) event) }
    {
        frame_of(&self.run(event, spread))
    }
}
