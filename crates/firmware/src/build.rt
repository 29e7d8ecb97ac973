// The compiler: the image and the map of a program.

ghost use Rattle.std.specs.Prelude.{◌≡◌, ◌<◌, ◌≤◌, ◌⊎◌, IfErr, IfOk, Err};
ghost use Rattle.frp_tree.specs.Tree.{program_tree_of};
ghost use Rattle.efrp_meaning.specs.Bounds.{levels, ram_bound};
ghost use Rattle.priority_masks.specs.Levels.{AreLevelsOf};
ghost use Rattle.program_bounds.specs.Bounded.{AreBounds};
ghost use Rattle.firmware_map.specs.Laws.{HasNames};
ghost use Rattle.firmware.specs.declared.faults.BuildFault.TheVariants.{Form, Memory, Stack};
ghost use Rattle.firmware.specs.Builds.{HasCode, IsBuildFault, IsBuilt};
ghost use Rattle.firmware.specs.Making.{IsRamFault};

use crate::faults::BuildFault;
use crate::kinds::has_code;
use crate::making::{built, places_of};
use crate::works::works_of;
use causality::Checked;
use firmware_layout::Parts;
use hex_file::Image;
use map_file::Map;
use priority_masks::{Levels, TooDeep};
use program_bounds::{Bounds, bounds_of};
use std::alloc::Global;

/// The banked general bytes of the chip's RAM (data sheet DS30292, "Register File Map").
const MOST_BYTES: u32 = 352;

/// An image and its map.
#[derive(Debug, Drop)]
pub struct Built {
    pub image: Image,
    pub map: Map,
}

// The levels of a program, where the chip's return stack has room for them.
fn levels_of(c: &Checked) -> Result<Levels, BuildFault>
    ensures ok { IfOk result (λ l. AreLevelsOf (program_tree_of c.now.typed.program) l × (levels (program_tree_of c.now.typed.program) ≤ 8)) }
    ensures err { IfErr result (λ fault. (fault ≡ Stack (levels (program_tree_of c.now.typed.program))) × (8 < levels (program_tree_of c.now.typed.program))) }
{
    match Levels::new(c) {
        Ok(levels) => Ok(levels),
        Err(TooDeep(count)) => Err(BuildFault::Stack(u32::from(count))),
    }
}

// The bounds of a program, where the chip has so much RAM.
fn bounds_in_ram(alloc: Global, c: &Checked) -> Result<Bounds, BuildFault>
    ensures ok { IfOk result (λ bounds. AreBounds (program_tree_of c.now.typed.program) bounds × (ram_bound (program_tree_of c.now.typed.program) ≤ 352)) }
    ensures err { IfErr result (IsRamFault (program_tree_of c.now.typed.program)) }
{
    let bounds = bounds_of(alloc, c)?;
    if bounds.ram > MOST_BYTES {
        return Err(BuildFault::Ram(bounds.ram));
    }
    Ok(bounds)
}

/// The firmware of a program that passes the checks, or why there is none. `Form` comes exactly where it has an input or a table,
/// and `Stack(n)` exactly where all others have n distinct priorities, more than 8; neither takes memory. `Ram(n)` comes only where
/// the bound on its bytes of general RAM is n, more than 352, and `Code(n)` only where it is past its bound of 8,192 words.
/// `Memory` is out of memory.
pub fn compile(alloc: Global, c: &Checked) -> Result<Built, BuildFault>
    requires names { HasNames (program_tree_of c.now.typed.program) }
    // The image and the map can be written, and their bytes are firmware for the program.
    ensures ok { IfOk result (IsBuilt (program_tree_of c.now.typed.program)) }
    // A fault is the program's, or memory ran out.
    ensures err { IfErr result (λ fault. (fault ≡ Memory) ⊎ IsBuildFault (program_tree_of c.now.typed.program) fault) }
    // The first two are told of each program that has them.
    ensures form { ¬ HasCode (program_tree_of c.now.typed.program) → result ≡ Err Form }
    ensures stack { HasCode (program_tree_of c.now.typed.program) → 8 < levels (program_tree_of c.now.typed.program) → result ≡ Err (Stack (levels (program_tree_of c.now.typed.program))) }
{
    if !has_code(c) {
        return Err(BuildFault::Form);
    }
    let levels = levels_of(c)?;
    let bounds = bounds_in_ram(alloc, c)?;
    let places = places_of(&levels, &bounds);
    let works = works_of(alloc, c, &places)?;
    let parts = Parts {
        c,
        levels: &levels,
        places: &places,
        works: works.as_slice(),
    };
    built(alloc, &parts, &bounds)
}
