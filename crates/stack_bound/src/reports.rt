// The depth and the steps that are reported of a program's firmware.
ghost use Rattle.std.specs.Prelude.{◌≡◌};
ghost use Rattle.frp_tree.specs.Tree.{ProgramTree};
ghost use Rattle.efrp_meaning.specs.Bounds.{levels as level_count, settle_bound};
ghost use Rattle.hex_file.specs.declared.images.Image.{Image as AnyImage};
ghost use Rattle.priority_masks.specs.Levels.{AreLevelsOf};
ghost use Rattle.program_bounds.specs.Bounded.{AreBounds};
ghost use Rattle.code_story.specs.Code.{Code};
ghost use Rattle.stack_bound.specs.Reports.{CodeStaysWithin};

use priority_masks::Levels;
use program_bounds::Bounds;

/// What is reported: the greatest depth of the return stack, in addresses, 0 to 8; and the steps of the chip, counted from power-on
/// and from each boundary with an arrival, after which all has settled.
#[derive(Clone, Copy, Debug, PartialEq, Eq)]
pub struct Report {
    pub depth: u8,
    pub settle: u32,
}

/// What is reported of a program with these levels and bounds. The run of code that is laid out for it, under a map with this report,
/// stays within it: from every start, whatever comes from outside. Takes no memory.
pub fn report_of(levels: &Levels, bounds: &Bounds) -> Report
    ensures depth { (p : ProgramTree) → AreLevelsOf p levels.now → result.depth ≡ level_count p }
    ensures settle { (p : ProgramTree) → AreBounds p bounds.now → result.settle ≡ settle_bound p }
    ensures within { (f : Code) (image : AnyImage) → CodeStaysWithin f image result }
{
    Report {
        depth: levels.count(),
        settle: bounds.settle,
    }
}
