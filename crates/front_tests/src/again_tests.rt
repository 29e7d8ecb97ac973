// Worked sources are read, printed and read again, and are the same programs.
use crate::sources::{
    CONTROLLER, COUNTER, DIVISION, DOUBLED, ELEVEN_EVENTS, FOUR_WIDTHS, INPUTS, LATER, QUOTIENTS,
    SAMPLED_DIVISION, SHIFTS, TABLES, THREE_LEVELS, TWO_LEVELS, TWO_STATES, in_full, sizes,
};
use efrp_syntax::{parse, print};
use std::alloc::Global;
use std::test::Fail;

/// Whether what is printed of the text's program is read as a program of the same size, of which the same is printed.
fn is_same_again(alloc: Global, text: &str) -> Result<bool, Fail> {
    let program = parse(alloc, text.as_bytes())?;
    let printed = print(alloc, &program)?;
    let again = parse(alloc, printed.as_slice())?;
    let second = print(alloc, &again)?;
    Ok(sizes(&again) == sizes(&program) && second.as_slice() == printed.as_slice())
}

#[test]
fn worked_sources_again(rt: HostRuntime) -> Result<(), Fail> {
    for text in [
        COUNTER,
        TWO_STATES,
        LATER,
        DOUBLED,
        FOUR_WIDTHS,
        QUOTIENTS,
        SHIFTS,
        DIVISION,
        THREE_LEVELS,
        TWO_LEVELS,
        ELEVEN_EVENTS,
        CONTROLLER,
        INPUTS,
        SAMPLED_DIVISION,
        TABLES,
        "",
    ] {
        assert!(rt; is_same_again(rt.alloc(), text)?, "{text}");
    }
    Ok(())
}

/// Long ones in short: eight, forty and two hundred operators in a row, and 86 definitions.
const LONG: &str = "\
event Go = T0 priority 1; let x : u16 = init 7w in { Go => x` / x`8`; };
event Go = T0 priority 1; let x : u16 = init 7w in { Go => x` / x`40`; };
event Go = T0 priority 1; let s : u8 = init 0 in { Go => 1` + 1`199`; };
event Go = T0 priority 1; `let w : u16 = init 0w in { Go => 1w; }; `86`let b : u8 = init 0 in { Go => 1; };";

#[test]
fn long_sources_again(rt: HostRuntime) -> Result<(), Fail> {
    for short in LONG.lines() {
        let text = in_full(rt.alloc(), short, 0)?;
        assert!(rt; is_same_again(rt.alloc(), text.as_str())?, "{short}");
    }
    Ok(())
}
