// The bounds of a program, from what its events cost.
ghost use Rattle.std.specs.Prelude.{◌≡◌, ◌+◌, ◌*◌, ◌<◌, ◌≤◌, ◌^◌, ℕ, List, IfOk, map, sum_by};
ghost use Rattle.frp_tree.specs.declared.syntax.Event.{Event};
ghost use Rattle.frp_tree.specs.Tree.{ProgramTree, program_tree_of};
ghost use Rattle.efrp_meaning.specs.Bounds.{body, greatest, response, scratch_bytes};
ghost use Rattle.program_bounds.specs.Bounded.{AreBounds, AreCosts};
ghost use Rattle.program_bounds.specs.Sized.{AreTotals};

use crate::costs::{Costs, costs_of};
use crate::sizes::{levels_of, sizes_of};
use causality::Checked;
use std::alloc::{AllocError, Global};

/// What a program's firmware keeps within. `off`, `boot` and `settle` are numbers of steps: of those in a row with interrupts
/// off; of the boot, to which two more come up to the ready boundary; and from the last arrival until all has settled. `words`
/// are those of the image, `ram` the bytes of general RAM outside 70h to 7Fh. `states` are the bytes of the states, `scratch`
/// the most that an event takes beside them.
#[derive(Clone, Copy, Debug, PartialEq, Eq)]
pub struct Bounds {
    pub off: u32,
    pub boot: u32,
    pub words: u32,
    pub ram: u32,
    pub settle: u32,
    pub states: u32,
    pub scratch: u32,
}

impl Bounds {
    /// The response bound of an event with these costs, in steps: the most from its arrival to its commit, where nothing of its
    /// own or a higher priority is about. Takes no memory.
    pub fn response(&self, costs: &Costs) -> u64
        ensures { (p : ProgramTree) → (event : List ℕ) → AreBounds p self.now → AreCosts p event costs.now → result ≡ response p event }
    {
        let off = self.off;
        let body = costs.body;
        3 * u64::from(off) + u64::from(body)
    }
}

// What all events add to the words and to the steps until all has settled, and the most scratch of one.
#[derive(Clone, Copy, Debug)]
pub(crate) struct Totals {
    pub(crate) words: u32,
    pub(crate) settle: u32,
    pub(crate) scratch: u32,
}

// The totals of all events, where a commit copies and puts by so many words, and so many steps are a row with interrupts off.
fn over_events(alloc: Global, c: &Checked, copied: u32, off: u32) -> Result<Totals, AllocError>
    requires copied { copied ≤ 2048 }
    requires off { off ≤ 4096 }
    ensures { IfOk result (AreTotals (program_tree_of c.now.typed.program) copied off) }
{
    let mut all = Totals {
        words: 0,
        settle: 0,
        scratch: 0,
    };
    for event in 0..c.typed().program().events.len() {
        let own = costs_of(alloc, c, event as u8)?;
        all = Totals {
            words: all.words + (128 + own.body + copied),
            settle: all.settle + (3 * own.body + 4 * off),
            scratch: all.scratch.max(own.scratch),
        };
    }
    Ok(all)
}

/// The bounds of a program. An `Err` is out of memory. The time is in proportion to the program's nodes for each event, beside
/// the look-up of each name and the type of each operand.
pub fn bounds_of(alloc: Global, c: &Checked) -> Result<Bounds, AllocError>
    ensures { IfOk result (AreBounds (program_tree_of c.now.typed.program)) }
{
    let sizes = sizes_of(c);
    let copied = 6 * (sizes.states + sizes.outputs);
    let off = 80 + 16 * sizes.events + copied;
    let boot = 48 + 4 * sizes.states + 4 * sizes.setups;
    let all = over_events(alloc, c, copied, off)?;
    let levels = levels_of(c);
    Ok(Bounds {
        off,
        boot,
        words: 64 + 16 * sizes.events + boot + all.words + sizes.tables,
        ram: sizes.states + 6 * levels + all.scratch,
        settle: boot + 2 + all.settle,
        states: sizes.states,
        scratch: all.scratch,
    })
}
