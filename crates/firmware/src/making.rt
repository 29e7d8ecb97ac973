// The image and the map, from what firmware is made of.

ghost use Rattle.std.specs.Prelude.{◌≡◌, ℕ, ◌<◌, ◌≤◌, ◌^◌, length, map, max, IfErr, IfOk};
ghost use Rattle.std.specs.List.{AllByRecursion};
ghost use Rattle.frp_tree.specs.Tree.{ProgramTree};
ghost use Rattle.efrp_meaning.specs.Bounds.{greatest, ram_bound};
ghost use Rattle.pic_isa.specs.declared.sources.Source.{Source as AnySource};
ghost use Rattle.priority_masks.specs.Levels.{AreLevelsOf};
ghost use Rattle.program_bounds.specs.Bounded.{AreBounds};
ghost use Rattle.code_items.specs.Items.{ItemFits, OnceEach};
ghost use Rattle.event_code.specs.declared.works.Work.{Work as AnyWork};
ghost use Rattle.firmware_layout.specs.Codes.{AreParts, makings_of, program_in};
ghost use Rattle.firmware_layout.specs.Pieces.{Makings, items_of};
ghost use Rattle.firmware_written.specs.Written.{IsLaidOut, IsMapped};
ghost use Rattle.firmware.specs.Builds.{IsBuilt};
ghost use Rattle.firmware.specs.Making.{AreFrames, AreMade, AreNeeds, IsCodeFault, IsFault};

use crate::build::Built;
use crate::faults::BuildFault;
use bank_alloc::{Needs, Places, place};
use code_items::Code;
use event_code::Work;
use firmware_layout::Parts;
use firmware_map::{Uses, map_of};
use frp_tree::List;
use glue_parts::Spread;
use hex_file::Image;
use map_file::Map;
use page_layout::{CodeFault, Laid, layout};
use priority_masks::Levels;
use program_bounds::Bounds;
use scratch_commit::Frame;
use stack_bound::report_of;
use std::alloc::{AllocError, Global};

/// The configuration word: no code protection, no watchdog, a crystal (data sheet DS30292, "Configuration Word").
const CONFIG: u16 = 0x3F3A;

// The places of the bytes that a program with these levels and bounds needs, which the chip has room for.
pub(crate) fn places_of(levels: &Levels, bounds: &Bounds) -> Places
    requires { (p : ProgramTree) × AreLevelsOf p levels.now × AreBounds p bounds.now × (ram_bound p ≤ 352) }
    ensures { (p : ProgramTree) → AreLevelsOf p levels.now → AreBounds p bounds.now → AreNeeds p result.need }
{
    let need = Needs {
        states: bounds.states,
        levels: levels.count(),
        scratch: bounds.scratch,
    };
    match place(&need) {
        Ok(places) => places,
        Err(_) => unreachable!(),
    }
}

// The words of code, where program memory has room for them.
fn laid_out(alloc: Global, code: &Code) -> Result<Laid, BuildFault>
    requires few { length code.now.items < 2 ^ 29 }
    requires fit { AllByRecursion ItemFits code.now.items }
    requires once { OnceEach code.now.items }
    ensures ok { (f : Makings) → code.now.items ≡ items_of f → IfOk result (IsLaidOut f) }
    ensures err { IfErr result (IsCodeFault code.now.items) }
{
    match layout(alloc, code) {
        Ok(laid) => Ok(laid),
        Err(CodeFault::Code(words)) => Err(BuildFault::Code(words)),
        Err(CodeFault::Memory) => Err(BuildFault::Memory),
    }
}

// Where each event's run finds again what was saved.
fn frames(alloc: Global, parts: &Parts, spread: Spread) -> Result<Vec<Frame>, AllocError>
    requires { AreParts parts.now }
    ensures { IfOk result (λ frames. (source : ℕ → AnySource) → AreFrames (makings_of parts.now spread source) frames.items) }
{
    let mut frames = Vec::new(alloc);
    for event in 0..parts.works.len() {
        frames.push(parts.frame(event as u8, spread))?;
    }
    Ok(frames)
}

// How many cells are those of states or of some work.
fn most_cells(states: u32, works: &[Work]) -> u32
    ensures { result ≡ max states (greatest (map (λ (w : AnyWork). w.cells) works.now)) }
{
    let mut cells = states;
    for work in works {
        cells = cells.max(work.cells);
    }
    cells
}

// The map of code that is laid out.
fn map_in(
    alloc: Global,
    parts: &Parts,
    spread: Spread,
    laid: &Laid,
    bounds: &Bounds,
) -> Result<Map, AllocError>
    requires parts { AreMade parts.now }
    requires bounds { AreBounds (program_in parts.now) bounds.now }
    requires few { length laid.now.words ≤ 8192 }
    ensures { IfOk result (λ m. (source : ℕ → AnySource) → IsMapped (makings_of parts.now spread source) laid.now m) }
{
    let frames = frames(alloc, parts, spread)?;
    let uses = Uses {
        c: parts.c,
        places: parts.places,
        frames: frames.as_slice(),
        cells: most_cells(bounds.states, parts.works),
        pages: spread.pages,
    };
    let marks = laid.marks.as_slice();
    let words = laid.words.len() as u16;
    let report = report_of(parts.levels, bounds);
    map_of(alloc, &uses, marks, words, report.depth, report.settle)
}

// The image and the map of a program that can be built, whose code turns out to have few enough words.
pub(crate) fn built(alloc: Global, parts: &Parts, bounds: &Bounds) -> Result<Built, BuildFault>
    requires parts { AreMade parts.now }
    requires bounds { AreBounds (program_in parts.now) bounds.now }
    ensures ok { IfOk result (IsBuilt (program_in parts.now)) }
    ensures err { IfErr result (IsFault (program_in parts.now)) }
{
    let (code, spread) = parts.code(alloc)?;
    let laid = laid_out(alloc, &code)?;
    let map = map_in(alloc, parts, spread, &laid, bounds)?;
    Ok(Built {
        image: Image {
            words: laid.words,
            config: Some(CONFIG),
            aside: List::new(alloc),
        },
        map,
    })
}
