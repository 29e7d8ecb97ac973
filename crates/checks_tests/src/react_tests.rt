// Initial states and reactions of small programs, from their texts on.
use crate::cycle_tests::checked;
use causality::Checked;
use frp_tree::Value;
use reaction_model::{Reaction, initial, react};
use std::alloc::Global;
use std::test::Fail;

/// Two reactions in a row, from the initial state on, to the first event with the same samples; None where the program
/// has no event, or these are not as many as its inputs.
fn two_reactions(
    alloc: Global,
    c: &Checked,
    samples: &[u8],
) -> Result<Option<(Reaction, Reaction)>, Fail> {
    if c.typed().program().events.len() == 0 || c.typed().inputs() as usize != samples.len() {
        return Ok(None);
    }
    let begin = initial(alloc, c)?;
    let first = react(alloc, c, &begin, samples, 0)?;
    let second = react(alloc, c, &first.state, samples, 0)?;
    Ok(Some((first, second)))
}

fn is_reaction(r: &Reaction, values: &[Value], ports: &[u8]) -> bool {
    r.state.values.as_slice() == values && r.ports.as_slice() == ports
}

/// A clause with `later`, and one at once that reads its definition.
const TICKING: &str = "event Tick = INT priority 1; \
    let a : u8 = init 5 in { Tick => a + 1 later; }; \
    let b : u8 = init 0 in { Tick => a; }; \
    output PORTB = a;";

#[test]
fn ticks(rt: HostRuntime) -> Result<(), Fail> {
    let Ok(c) = checked(rt.alloc(), TICKING)? else {
        return Err(Fail::new("the program passes the checks"));
    };
    let begin = initial(rt.alloc(), &c)?;
    assert!(rt; begin.values.as_slice() == [Value::U8(5), Value::U8(0)].as_slice());
    let Some((first, second)) = two_reactions(rt.alloc(), &c, &[])? else {
        return Err(Fail::new("the program has an event and no input"));
    };
    assert!(rt; is_reaction(&first, &[Value::U8(6), Value::U8(5)], &[5]));
    assert!(rt; is_reaction(&second, &[Value::U8(7), Value::U8(6)], &[6]));
    Ok(())
}

/// Types, each with an initial value, an expression and, behind the arrow, its value.
const OPERATORS: &str = "\
u8 1 255 + 1 -> 0
u16 1w 255w + 1w -> 256
u8 1 0 - 1 -> 255
u16 1w 0w - 1w -> 65535
u8 1 200 / 0 -> 255
u16 1w 200w / 0w -> 65535
u8 1 200 % 0 -> 200
u16 0w 65535w * 65535w -> 1
u8 1 16 * 16 -> 0
u8 1 200 / 7 -> 28
u8 1 200 % 7 -> 4
u8 1 ~1 -> 254
u16 1w ~1w -> 65534
u8 1 129 << 1 -> 2
u16 1w 129w << 1 -> 258
u8 1 129 >> 7 -> 1
u8 1 12 & 10 | 1 -> 9
u8 1 12 ^ 10 -> 6
bool false !(2 < 1) && 1 <= 1 -> true
bool true 2w > 3w || 1 != 1 -> false
bool false true == true -> true
bool false 2 >= 3 -> false
u8 1 if 1 == 1 then 3 else 4 -> 3
u8 1 if 1 == 2 then 3 else 4 -> 4
u8 1 u8(513w) -> 1
u16 1w u16(255) + 1w -> 256
u8 0 u8(true) -> 1
u8 1 t[1] -> 20
u8 1 t[3] -> 30";

/// The value of this type that is written so.
fn value(ty: &str, text: &str) -> Option<Value> {
    match ty {
        "u8" => text.parse::<u8>().ok().map(Value::U8),
        "u16" => text.parse::<u16>().ok().map(Value::U16),
        _ => text.parse::<bool>().ok().map(Value::Bool),
    }
}

/// The parts of a row: the type, the initial value, the expression, and its value.
fn parts_of(row: &str) -> Option<(&str, &str, &str, Value)> {
    let (ty, rest) = row.split_once(' ')?;
    let (init, rest) = rest.split_once(' ')?;
    let (expr, text) = rest.rsplit_once(" -> ")?;
    Some((ty, init, expr, value(ty, text)?))
}

/// Whether the expression of a row has its value at two reactions.
fn has_value(alloc: Global, row: &str) -> Result<bool, Fail> {
    let Some((ty, init, expr, value)) = parts_of(row) else {
        return Ok(false);
    };
    let text = format!(in alloc;
        "event Go = INT priority 1; let t : u8 = table {{ 10, 20, 30 }}; let r : {ty} = init {init} in {{ Go => {expr}; }};"
    )?;
    let Ok(c) = checked(alloc, text.as_str())? else {
        return Ok(false);
    };
    match two_reactions(alloc, &c, &[])? {
        Some((first, second)) => Ok(
            is_reaction(&first, &[value], &[]) && is_reaction(&second, &[value], &[]),
        ),
        None => Ok(false),
    }
}

#[test]
fn operators(rt: HostRuntime) -> Result<(), Fail> {
    for row in OPERATORS.lines() {
        assert!(rt; has_value(rt.alloc(), row)?, "{row}");
    }
    Ok(())
}

/// Whether a reaction gives these bytes: the values of two reactive definitions, and the byte of one output.
fn gives(r: &Reaction, bytes: [u8; 3]) -> bool {
    let [a, b, port] = bytes;
    is_reaction(r, &[Value::U8(a), Value::U8(b)], &[port])
}

/// Whether the two reactions give these bytes.
fn are_reactions(
    alloc: Global,
    text: &str,
    samples: &[u8],
    first: [u8; 3],
    second: [u8; 3],
) -> Result<bool, Fail> {
    let Ok(c) = checked(alloc, text)? else {
        return Ok(false);
    };
    match two_reactions(alloc, &c, samples)? {
        Some((one, two)) => Ok(gives(&one, first) && gives(&two, second)),
        None => Ok(false),
    }
}

/// Two clauses with `later` that swap.
const SWAPPED: &str = "event Go = INT priority 1; \
    let a : u8 = init 1 in { Go => b later; }; \
    let b : u8 = init 2 in { Go => a later; }; \
    output PORTB = a;";

/// Clauses at once.
const ADDED: &str = "event Go = INT priority 1; \
    let a : u8 = init 1 in { Go => a + b; }; \
    let b : u8 = init 2 in { Go => b * 2; }; \
    output PORTB = a;";

/// A plain definition behind a definition that needs it, and a clause on another event.
const ON_ONE_EVENT: &str = "event Go = INT priority 1; \
    event Other = T0 priority 2; \
    let a : u8 = init 1 in { Other => 9; }; \
    let b : u8 = init 2 in { Go => p + 1 later; }; \
    let p : u8 = a + b; \
    output PORTB = p;";

/// Two inputs, one of them behind a definition that needs it.
const SAMPLED: &str = "event Go = INT priority 1; \
    let m : u8 = input PORTB; \
    let a : u8 = init 0 in { Go => n; }; \
    let n : u8 = input PORTD; \
    let b : u8 = init 0 in { Go => b + m later; }; \
    output PORTC = b + m;";

/// A program, its samples, and the bytes of its two reactions.
type Reacting = (&'static str, &'static [u8], [u8; 3], [u8; 3]);

/// Clauses at once and later, in any order of the definitions; plain definitions, and two inputs.
#[test]
fn names(rt: HostRuntime) -> Result<(), Fail> {
    let cases: [Reacting; 4] = [
        (SWAPPED, &[], [2, 1, 1], [1, 2, 2]),
        (ADDED, &[], [5, 4, 5], [13, 8, 13]),
        (ON_ONE_EVENT, &[], [1, 4, 3], [1, 6, 5]),
        (SAMPLED, &[3, 7], [7, 3, 3], [7, 6, 6]),
    ];
    for (text, samples, first, second) in cases {
        assert!(rt;
            are_reactions(rt.alloc(), text, samples, first, second)?,
            "{text}"
        );
    }
    Ok(())
}
