// The enables at a level, PEIE among them.
ghost use Rattle.std.specs.Prelude.{◌≤◌};
ghost use Rattle.frp_tree.specs.Tree.{ProgramTree};
ghost use Rattle.priority_masks.specs.Levels.{AreLevelsOf};
ghost use Rattle.glue_parts.specs.Heard.{IsHeardAt};

use pic_isa::bits::PEIE;
use pic_regs::bytes::{either, has_no_bit, set_bit};
use priority_masks::{Enables, Levels};

/// The enables of the events above this level, which is at most `count`; and PEIE where the enable of one of them is in PIE1 or
/// PIE2. At a level without PEIE firmware leaves PIE1 and PIE2 as they are. Takes no memory.
pub fn heard_at(levels: &Levels, level: u8) -> Enables
    requires { level ≤ levels.now.count }
    ensures { (p : ProgramTree) → AreLevelsOf p levels.now → IsHeardAt p level result }
{
    let above = levels.enables(level);
    let peripheral = !has_no_bit(either(above.pie1, above.pie2));
    Enables {
        intcon: set_bit(above.intcon, PEIE, peripheral),
        pie1: above.pie1,
        pie2: above.pie2,
    }
}
