// Programs that several tests compile.

use std::alloc::{AllocError, Global};
use std::fmt::Write;

/// Ticks are counted, and the count is put on a port.
pub(crate) const COUNTER: &str = "event Tick = INT priority 1;
setup TRISB = 0;
let n : u8 = init 0 in { Tick => n + 1; };
output PORTB = n;
";

/// A long division, and an urgent event that changes its divisor.
pub(crate) const DIVISION: &str = "event Low = TMR1 priority 1;
event High = INT priority 2;
let d : u16 = init 3w in { High => d + 2w; };
let q : u16 = init 0w in { Low => 60000w / d; };
";

/// Two events of two levels, whose work is short.
pub(crate) const SHORT: &str = "event Low = TMR1 priority 1;
event High = INT priority 2;
let a : u8 = init 0 in { Low => a + 1; };
let b : u8 = init 0 in { High => b + 1; };
";

/// Three levels: the work of each reads what the levels above it change.
pub(crate) const NESTED: &str = "event A = T0 priority 1;
event B = INT priority 2;
event C = TMR1 priority 3;
let a : u16 = init 1w in { A => 60000w / b / c / c; };
let b : u16 = init 1w in { B => 60000w / c / c / c; };
let c : u16 = init 1w in { C => c + 1w; };
";

/// A motor is led to a speed that is set by two buttons; a timer gives its pulses, another one counts its time.
pub(crate) const CONTROLLER: &str = "event Slow = TMR1 priority 1;
event Tick = TMR2 priority 3;
event Up = INT priority 2;
event Down = CCP1 priority 2;
setup TRISB = 1;
setup TRISC = 0;
setup OPTION_REG = 0xC0;
setup PR2 = 249;
setup T2CON = 0x05;
let goal : u8 = init 0 in {
  Up => if goal < 250 then goal + 5 else 250;
  Down => if goal > 5 then goal - 5 else 0; };
let speed : u8 = init 0 in {
  Slow => if speed < goal then speed + 1 else if speed > goal then speed - 1 else speed; };
let phase : u8 = init 0 in { Tick => phase + 1; };
let duty : bool = phase < speed;
let runtime : u16 = init 0w in { Slow => runtime + 1w later; };
output PORTC = if duty then 1 else 0;
output PORTB = u8(runtime >> 8);
";

/// Eight divisions of 16 bits in one expression.
pub(crate) const DIVISIONS: &str =
    "event Go = T0 priority 1; let x : u16 = init 7w in { Go => x / x / x / x / x / x / x / x / x; };";

/// Quotients on three levels, whose code takes several pages: x is 7 at first, then 0 and FFFFh by turns.
pub(crate) const PAGES: &str = "event A = T0 priority 1;
event B = INT priority 1;
event C = PSP priority 2;
event D = AD priority 3;
let x : u16 = init 7w in {
  A => x / x / x / x / x;
  B => x / x / x / x / x;
  C => x / x / x / x / x;
  D => x / x / x / x / x; };
";

/// Priorities of eleven events: eight levels, a level too many, and one level.
pub(crate) const EIGHT_LEVELS: [u8; 11] = [1, 2, 3, 4, 5, 6, 7, 8, 8, 8, 8];

pub(crate) const NINE_LEVELS: [u8; 11] = [1, 2, 3, 4, 5, 6, 7, 8, 9, 8, 8];

pub(crate) const ONE_LEVEL: [u8; 11] = [1; 11];

// The sources, in the order of their bits in a set of them.
const SOURCES: [&str; 11] = [
    "T0", "INT", "PSP", "AD", "SSP", "CCP1", "TMR2", "TMR1", "EE", "BCL", "CCP2",
];

/// A program of the events A0 to A10 on the eleven sources, with these priorities, and of one definition that begins so and has
/// the same clause for each event.
pub(crate) fn of_eleven_events(
    alloc: Global,
    priorities: &[u8; 11],
    definition: &str,
    clause: &str,
) -> Result<String, AllocError> {
    let mut text = String::new(alloc);
    let mut clauses = String::new(alloc);
    for (number, (source, priority)) in SOURCES.iter().zip(priorities).enumerate() {
        writeln!(text, "event A{number} = {source} priority {priority};")?;
        write!(clauses, "A{number} => {clause}; ")?;
    }
    writeln!(text, "let {definition} in {{ {clauses}}};")?;
    Ok(text)
}

/// The program in which each of eleven events with these priorities adds 1 to one state.
pub(crate) fn of_eleven_counts(alloc: Global, priorities: &[u8; 11]) -> Result<String, AllocError> {
    of_eleven_events(alloc, priorities, "n : u8 = init 0", "n + 1")
}

/// A program of one event that needs 352 bytes of RAM by its bound: 173 for its states, 6 for its level and 173 for results.
pub(crate) fn of_352_bytes(alloc: Global) -> Result<String, AllocError> {
    let mut text = String::from_str(alloc, "event T = INT priority 1;\n")?;
    for number in 0..86u32 {
        writeln!(text, "let d{number} : u16 = init 0w in {{ T => 1w; }};")?;
    }
    text.push_str("let e : u8 = init 0 in { T => 1; };\n")?;
    Ok(text)
}
