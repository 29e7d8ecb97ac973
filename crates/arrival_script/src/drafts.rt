// The script of the lines that are read so far.
ghost use Rattle.std.specs.Prelude.{◌≡◌, ◌+◌, ◌++◌, ◌∷◌, ◌<◌, ◌^◌, List as Items, [], ◌==◌, ◌&&◌, nat_le, true, false, OnOk, Some};
ghost use Rattle.std.specs.List.{list_any};
ghost use Rattle.text_parts.specs.Bytes.{begins};
ghost use Rattle.text_parts.specs.Fields.{fields_of};
ghost use Rattle.arrival_script.specs.Scripts.{Line as Lines, is_same_pin};
ghost use Rattle.arrival_script.specs.Drafts.{
  IsDraftOf,
  Extends,
  Takes,
  Ends,
  is_above,
  past_number,
};

use crate::entries::{Entry, read_entry};
use crate::scripts::{Arrival, Cause, Late, PinChange, Script, ScriptFault};
use frp_tree::List;
use std::alloc::{AllocError, Global};
use text_parts::next_field;

/// The number of an `at` or a `pin` line, and its boundary.
#[derive(Clone, Copy, Debug, PartialEq, Eq)]
pub(crate) struct Timed {
    line: u32,
    at: u32,
}

/// What the lines before state: the parts of the script, the `at` and `pin` lines and the boundary of the last of them,
/// whether there was a line that isn't skipped, and whether all of these were `fill` lines.
#[derive(Drop)]
pub(crate) struct Draft {
    fill: u8,
    late: Late,
    arrivals: List<Arrival>,
    pins: List<PinChange>,
    timed: List<Timed>,
    reached: u32,
    steps: Option<u32>,
    started: bool,
    opening: bool,
}

// Whether a line with this word is skipped.
fn is_comment(word: &[u8]) -> bool
    ensures { result ≡ begins (λ b. b == 35) word.now }
{
    matches!(word, [b'#', ..])
}

// Whether two changes are of the same port at the same boundary.
fn is_same_pin(a: PinChange, b: PinChange) -> bool
    ensures { result ≡ is_same_pin a b }
{
    a.at == b.at && a.port == b.port
}

// Whether a port's pins change at a boundary already.
fn has_change(pins: &[PinChange], change: PinChange) -> bool
    ensures { result ≡ list_any (λ other. is_same_pin change other) pins.now }
{
    pins.iter().any(|other| is_same_pin(change, *other))
}

impl Draft {
    /// The draft before the first line. Takes no memory.
    pub(crate) fn new(alloc: Global) -> Draft
        ensures { IsDraftOf [] result }
    {
        Draft {
            fill: 0,
            late: Late::Never,
            arrivals: List::new(alloc),
            pins: List::new(alloc),
            timed: List::new(alloc),
            reached: 0,
            steps: None,
            started: false,
            opening: true,
        }
    }

    // Whether a boundary is above that of the arrival before.
    fn is_above(&self, boundary: u32) -> bool
        ensures { result ≡ is_above self.now.arrivals boundary }
    {
        match self.arrivals.as_slice().last() {
            Some(last) => last.at < boundary,
            None => true,
        }
    }

    // Whether a boundary isn't below that of the last line with one.
    fn stays_below(&self, boundary: u32) -> bool
        ensures { result ≡ nat_le self.now.reached boundary }
    {
        self.reached <= boundary
    }

    // Whether an arrival may stand at a boundary.
    fn has_room_at(&self, boundary: u32) -> bool
        ensures { result ≡ (nat_le self.now.reached boundary && is_above self.now.arrivals boundary) }
    {
        self.stays_below(boundary) && self.is_above(boundary)
    }

    // Notes a line of a boundary.
    fn reach(&mut self, line: u32, at: u32) -> Result<(), AllocError>
        ensures { OnOk result (self.new ≡ record self.old {
          timed = self.old.timed ++ record { line = line; at = at } ∷ [];
          reached = at;
          started = true;
          opening = false;
        }) }
    {
        self.timed.push(Timed { line, at })?;
        self.reached = at;
        self.started = true;
        self.opening = false;
        Ok(())
    }

    fn add_arrival(&mut self, number: u32, arrival: Arrival) -> Result<(), ScriptFault>
        ensures { Extends self.old number (Entry.At arrival) self.new result }
    {
        if !self.has_room_at(arrival.at) {
            return Err(ScriptFault::Line {
                line: number,
                cause: Cause::NotRising,
            });
        }
        self.arrivals.push(arrival)?;
        self.reach(number, arrival.at)?;
        Ok(())
    }

    fn add_change(&mut self, number: u32, change: PinChange) -> Result<(), ScriptFault>
        ensures { Extends self.old number (Entry.Pin change) self.new result }
    {
        if !self.stays_below(change.at) {
            return Err(ScriptFault::Line {
                line: number,
                cause: Cause::NotRising,
            });
        }
        if has_change(self.pins.as_slice(), change) {
            return Err(ScriptFault::Line {
                line: number,
                cause: Cause::PinTwice,
            });
        }
        self.pins.push(change)?;
        self.reach(number, change.at)?;
        Ok(())
    }

    fn add_fill(&mut self, number: u32, byte: u8) -> Result<(), ScriptFault>
        ensures { Extends self.old number (Entry.Fill byte) self.new result }
    {
        if self.started {
            return Err(ScriptFault::Line {
                line: number,
                cause: Cause::BadLine,
            });
        }
        self.fill = byte;
        self.started = true;
        Ok(())
    }

    fn add_late(&mut self, number: u32, late: Late) -> Result<(), ScriptFault>
        ensures { Extends self.old number (Entry.Late late) self.new result }
    {
        if !self.opening {
            return Err(ScriptFault::Line {
                line: number,
                cause: Cause::BadLine,
            });
        }
        self.late = late;
        self.started = true;
        self.opening = false;
        Ok(())
    }

    // Adds what a line says, where no line before has the steps.
    fn add(&mut self, number: u32, entry: Entry) -> Result<(), ScriptFault>
        ensures { Extends self.old number entry self.new result }
    {
        match entry {
            Entry::Fill(byte) => self.add_fill(number, byte),
            Entry::Late(late) => self.add_late(number, late),
            Entry::At(arrival) => self.add_arrival(number, arrival),
            Entry::Pin(change) => self.add_change(number, change),
            Entry::Steps(steps) => {
                self.steps = Some(steps);
                self.started = true;
                self.opening = false;
                Ok(())
            }
        }
    }

    /// Reads the line with this number. An `Err` is its fault, or out of memory.
    pub(crate) fn read_line(&mut self, number: u32, text: &[u8]) -> Result<(), ScriptFault>
        ensures { (before : Items Lines) → IsDraftOf before self.old → Takes before (record { number = number; fields = fields_of text.now }) self.new result }
    {
        let Some((word, more)) = next_field(text) else {
            return Ok(());
        };
        if is_comment(word) {
            return Ok(());
        }
        if self.steps.is_some() {
            return Err(ScriptFault::Line {
                line: number,
                cause: Cause::AfterSteps,
            });
        }
        match read_entry(word, more) {
            Ok(entry) => self.add(number, entry),
            Err(cause) => Err(ScriptFault::Line {
                line: number,
                cause,
            }),
        }
    }

    // The number of the first line whose boundary isn't before the last step.
    fn past_number(&self, steps: u32) -> Option<u32>
        ensures { result ≡ past_number self.now steps }
    {
        let past = self.timed.as_slice().iter().find(|t| steps <= t.at)?;
        Some(past.line)
    }

    /// The script of all lines, of which there are `count`, or the fault at the end.
    pub(crate) fn finish(self, count: u32) -> Result<Script, ScriptFault>
        requires { count + 1 < 2 ^ 32 }
        ensures { (told : Items Lines) → IsDraftOf told self → Ends count told result }
    {
        let Some(steps) = self.steps else {
            return Err(ScriptFault::Line {
                line: count + 1,
                cause: Cause::NoSteps,
            });
        };
        match self.past_number(steps) {
            Some(line) => Err(ScriptFault::Line {
                line,
                cause: Cause::PastEnd,
            }),
            None => Ok(Script {
                fill: self.fill,
                late: self.late,
                arrivals: self.arrivals,
                pins: self.pins,
                steps,
            }),
        }
    }
}
