// The levels of a program's priorities, and the enables at each.
ghost use Rattle.std.specs.Prelude.{◌≡◌, ◌<◌, ◌≤◌, ◌^◌, ◌↔◌, IfErr, IfOk, IsOk, length};
ghost use Rattle.frp_tree.specs.Tree.{ProgramTree, program_tree_of};
ghost use Rattle.pic_isa.specs.Sources.{enable_of};
ghost use Rattle.efrp_meaning.specs.Bounds.{levels};
ghost use Rattle.priority_masks.specs.Levels.{AreLevelsOf, HasEnablesIn, HaveEnables, level_of};

use crate::counts::{distinct, distinct_up_to};
use crate::tables::{Enables, Levels, TooDeep};
use causality::Checked;
use pic_isa::Source;
use pic_isa::registers::{INTCON, PIE1, PIE2};

/// The most levels that the chip's memory is shared among.
const MOST_LEVELS: u8 = 8;

// The byte of a register in which the source's enable alone is set.
fn enable_bit(source: Source) -> u8
    ensures { result ≡ 2 ^ (enable_of source).bit }
{
    1u8 << source.enable().bit
}

impl Levels {
    /// The levels of a program. `TooDeep(n)` comes exactly where it has more than 8 distinct priorities, n being their number.
    /// Takes no memory.
    pub fn new(c: &Checked) -> Result<Levels, TooDeep>
        ensures fits { IsOk result ↔ (levels (program_tree_of c.now.typed.program) ≤ 8) }
        ensures ok { IfOk result (λ l. AreLevelsOf (program_tree_of c.now.typed.program) l) }
        ensures too_deep { IfErr result (λ fault. fault.0 ≡ levels (program_tree_of c.now.typed.program)) }
    {
        let typed = c.typed();
        let events = typed.program().events.as_slice();
        let mut priorities = [0u16; 11];
        let mut sources = [Source::T0; 11];
        for (n, event) in events.iter().enumerate() {
            priorities[n] = event.priority;
            sources[n] = typed.event_source(n as u8);
        }
        let count = distinct(&priorities[..events.len()]);
        if count > MOST_LEVELS {
            return Err(TooDeep(count));
        }
        Ok(Levels {
            events: events.len() as u8,
            count,
            priorities,
            sources,
        })
    }

    /// How many levels there are, 0 to 8, idle not among them. Takes no memory.
    pub fn count(&self) -> u8
        ensures { (p : ProgramTree) → AreLevelsOf p self.now → result ≡ levels p }
    {
        self.count
    }

    /// The level of the event with this number, 1 to `count`. Takes no memory.
    pub fn level(&self, event: u8) -> u8
        requires { event < self.now.events }
        ensures { (p : ProgramTree) → AreLevelsOf p self.now → result ≡ level_of p event }
    {
        let priorities = &self.priorities[..self.events as usize];
        distinct_up_to(priorities, priorities[event as usize])
    }

    // The byte of the register at this address: the enables of the events whose levels are above this one.
    fn enables_in(&self, register: u8, level: u8) -> u8
        ensures { (p : ProgramTree) → AreLevelsOf p self.now → HasEnablesIn p level register result }
    {
        let mut byte = 0;
        for event in 0..self.events {
            let source = self.sources[event as usize];
            let is_above = self.level(event) > level;
            if is_above && source.enable().address == u16::from(register) {
                byte |= enable_bit(source);
            }
        }
        byte
    }

    /// The enables of the events whose levels are above this one, which is at most `count`: all events at level 0. PEIE and
    /// GIE are 0, as is each bit that is no source's enable. Takes no memory.
    pub fn enables(&self, level: u8) -> Enables
        requires { level ≤ self.now.count }
        ensures { (p : ProgramTree) → AreLevelsOf p self.now → HaveEnables p level result }
    {
        Enables {
            intcon: self.enables_in(INTCON, level),
            pie1: self.enables_in(PIE1, level),
            pie2: self.enables_in(PIE2, level),
        }
    }
}
