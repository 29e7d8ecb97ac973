// Worked source texts, and pieces of texts.
use frp_tree::Program;
use std::alloc::{AllocError, Global};
use std::test::Fail;

pub const COUNTER: &str = "event Tick = INT priority 1;
setup TRISB = 0;
let n : u8 = init 0 in { Tick => n + 1; };
output PORTB = n;
";

pub const TWO_STATES: &str =
    "event Tick = INT priority 1; let a : u8 = init 5 in { Tick => a + 1 later; }; let b : u8 = init 0 in { Tick => a; }; output PORTB = a;";

pub const LATER: &str =
    "event Go = T0 priority 2; let x : u8 = init 1 in { Go => y + 1 later; }; let y : u8 = init 2 in { Go => x + x; };";

pub const DIVISION: &str = "event Low = TMR1 priority 1;
event High = INT priority 2;
let d : u16 = init 3w in { High => d + 2w; };
let q : u16 = init 0w in { Low => 60000w / d; };
";

pub const CONTROLLER: &str = "event Slow = TMR1 priority 1;
event Tick = TMR2 priority 3;
event Up = INT priority 2;
event Down = CCP1 priority 2;
setup TRISB = 1;
setup TRISC = 0;
setup OPTION_REG = 0xC0;
setup PR2 = 249;
setup T2CON = 0x05;
let goal : u8 = init 0 in {
  Up => if goal < 250 then goal + 5 else 250;
  Down => if goal > 5 then goal - 5 else 0; };
let speed : u8 = init 0 in {
  Slow => if speed < goal then speed + 1 else if speed > goal then speed - 1 else speed; };
let phase : u8 = init 0 in { Tick => phase + 1; };
let duty : bool = phase < speed;
let runtime : u16 = init 0w in { Slow => runtime + 1w later; };
output PORTC = if duty then 1 else 0;
output PORTB = u8(runtime >> 8);
";

pub const INPUTS: &str = "event Tick = INT priority 1;
setup TRISC = 0;
let level : u8 = input PORTB;
let top : u8 = init 0 in { Tick => if level > top then level else top; };
output PORTC = top;
";

pub const TABLES: &str = "event Tick = INT priority 1;
setup TRISB = 0;
let wave : u8 = table { 0, 10, 30, 60, 100 };
let i : u8 = init 0 in { Tick => i + 3; };
output PORTB = wave[i];
";

pub const DOUBLED: &str = "event Go = T0 priority 2; let n : u8 = init 3 in { Go => n + n; };";

pub const FOUR_WIDTHS: &str = "event Go = T0 priority 1;
let a : u8 = init 255 in { Go => a + 1; };
let b : u16 = init 255w in { Go => b + 1w; };
let c : u8 = init 0 in { Go => c - 1; };
let d : u16 = init 0w in { Go => d - 1w; };
";

pub const QUOTIENTS: &str = "event Go = T0 priority 1;
let n : u8 = init 200 in { }; let z : u8 = init 0 in { };
let m : u8 = init 255 in { }; let k : u8 = init 129 in { };
let a : u8 = init 0 in { Go => n / z; }; let b : u8 = init 0 in { Go => n % z; };
let c : u8 = init 0 in { Go => m / k; }; let d : u8 = init 0 in { Go => m % k; };
";

pub const SHIFTS: &str = "let p : u16 = 65535w * 65535w; let q : u16 = 1w << 15;";

pub const THREE_LEVELS: &str =
    "event A = T0 priority 1; event B = INT priority 2; event C = TMR1 priority 3;
let a : u16 = init 1w in { A => 60000w / b / c / c; };
let b : u16 = init 1w in { B => 60000w / c / c / c; };
let c : u16 = init 1w in { C => c + 1w; };
";

pub const TWO_LEVELS: &str = "event Low = TMR1 priority 1;
event High = INT priority 2;
let a : u8 = init 0 in { Low => a + 1; };
let b : u8 = init 0 in { High => b + 1; };
";

pub const ELEVEN_EVENTS: &str =
    "event A0 = T0 priority 1; event A1 = INT priority 2; event A2 = PSP priority 3;
event A3 = AD priority 4; event A4 = SSP priority 5; event A5 = CCP1 priority 6;
event A6 = TMR2 priority 7; event A7 = TMR1 priority 8; event A8 = EE priority 8;
event A9 = BCL priority 8; event A10 = CCP2 priority 8;
let n : u8 = init 0 in {
  A0 => n + 1; A1 => n + 1; A2 => n + 1; A3 => n + 1; A4 => n + 1; A5 => n + 1;
  A6 => n + 1; A7 => n + 1; A8 => n + 1; A9 => n + 1; A10 => n + 1; };
";

pub const SAMPLED_DIVISION: &str = "event Low = TMR1 priority 1;
event High = INT priority 2;
let level : u8 = input PORTB;
let d : u16 = init 3w in { High => d + 2w; };
let q : u16 = init 0w in { Low => 60000w / (d + u16(level)); };
";

/// How many events, setups, definitions and outputs a program has.
pub fn sizes(p: &Program) -> (usize, usize, usize, usize) {
    (
        p.events.len(),
        p.setups.len(),
        p.decls.len(),
        p.outputs.len(),
    )
}

/// The piece this many times, between two texts.
pub fn repeated(
    alloc: Global,
    front: &str,
    piece: &str,
    times: usize,
    back: &str,
) -> Result<String, AllocError> {
    let mut text = String::from_str(alloc, front)?;
    for _ in 0..times {
        text.push_str(piece)?;
    }
    text.push_str(back)?;
    Ok(text)
}

/// The text that stands in short as `FRONT`PIECE`N`BACK`, with the piece N times and so many times more.
pub fn in_full(alloc: Global, short: &str, more: usize) -> Result<String, Fail> {
    let mut parts = short.split('`');
    let (Some(front), Some(piece), Some(times), Some(back)) = (
        parts.next(),
        parts.next(),
        parts.next(),
        parts.next(),
    ) else {
        return Err(Fail::new("a text in short has four parts"));
    };
    let Ok(times) = times.parse::<usize>() else {
        return Err(Fail::new("the third part of a text in short is a number"));
    };
    Ok(repeated(alloc, front, piece, times.saturating_add(more), back)?)
}
