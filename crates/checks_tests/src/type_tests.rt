// Source texts whose types have no fault, and such with a first fault of each line of the table of types.
use efrp_syntax::parse;
use efrp_types::{CheckFault, Typed, check_names, check_types, spelled_is_well_formed};
use frp_tree::{BinOp, Expr, Lit, Text, Ty};
use pic_isa::Source;
use std::alloc::Global;
use std::process::Abort;
use std::test::Fail;

/// The typed program of a text, or its first fault.
fn typed(alloc: Global, text: &str) -> Result<Result<Typed, CheckFault>, Fail> {
    let program = parse(alloc, text.as_bytes())?;
    let names = match check_names(alloc, &program) {
        Ok(names) => names,
        Err(fault) => return Ok(Err(fault)),
    };
    spelled_is_well_formed();
    Ok(check_types(alloc, program, names))
}

/// How a type is written.
fn word(ty: Ty) -> &'static str {
    match ty {
        Ty::Bool => "bool",
        Ty::U8 => "u8",
        Ty::U16 => "u16",
    }
}

/// Whether these words tell the fault: its kind and whose it is, and of a type the one wanted and the one found.
fn is_told(fault: &CheckFault, words: &str) -> bool {
    let (kind, rest) = words.split_once(' ').unwrap_or((words, ""));
    match fault {
        CheckFault::LiteralRange(owner) => kind == "literal" && rest == owner.as_str(),
        CheckFault::BadShift(owner) => kind == "shift" && rest == owner.as_str(),
        CheckFault::TypeOf {
            owner,
            wanted,
            found,
        } => match rest.split_once(' ') {
            Some((name, types)) => {
                kind == "type"
                    && name == owner.as_str()
                    && types.split_once(' ') == Some((word(*wanted), word(*found)))
            }
            None => false,
        },
        _ => false,
    }
}

/// Whether the text of a row has a first fault, and it is the one that the row tells before the bar.
fn is_faulty(alloc: Global, row: &str) -> Result<bool, Fail> {
    let (words, text) = row.split_once(" | ").unwrap_or((row, ""));
    match typed(alloc, text)? {
        Ok(_typed) => Ok(false),
        Err(fault) => Ok(is_told(&fault, words)),
    }
}

/// Asserts of each row that its text has a first fault, and that it is the one that the row tells.
fn expect_faults(rt: &(impl AllocGlobal + Abort), rows: &str) -> Result<(), Fail> {
    for row in rows.lines() {
        assert!(rt; is_faulty(rt.alloc(), row)?, "{row}");
    }
    Ok(())
}

/// Texts of one fault each, which stands before the bar.
const UNLIKE: &str = "\
type x u8 bool | let x : u8 = ~true;
type x bool u8 | let x : bool = !1;
type x bool u16 | let x : bool = !1w;
type x u8 bool | let x : u8 = true + 1;
type x u8 bool | let x : u8 = 1 + true;
type x u16 u8 | let x : u16 = 1w - 1;
type x u8 u16 | let x : u8 = 2 * 2w;
type x u8 u16 | let x : u8 = 2 / 2w;
type x u8 u16 | let x : u8 = 2 % 2w;
type x u8 u16 | let x : u8 = 2 & 2w;
type x u16 u8 | let x : u16 = 2w ^ 2;
type x u8 bool | let x : bool = true | false;
type x u8 bool | let x : bool = true < false;
type x u8 u16 | let x : bool = 1 <= 1w;
type x u16 u8 | let x : bool = 1w > 1;
type x u8 bool | let x : bool = 1 >= true;
type x bool u8 | let x : bool = true == 1;
type x u16 u8 | let x : bool = 1w != 1;
type x bool u8 | let x : bool = 1 && true;
type x bool u16 | let x : bool = true || 1w;
type x u8 bool | let x : u8 = true << 1;
type x bool u8 | let x : u8 = if 1 then 2 else 3;
type x u8 u16 | let x : u8 = if true then 2 else 3w;
type x u16 u8 | let x : u8 = u8(1);
type x u8 u16 | let x : u16 = u16(1w);
type x u8 u16 | let x : u8 = t[1w]; let t : u8 = table { 1 };
type x u8 u16 | let x : u8 = t[0]; let t : u16 = table { 1w };
type x u8 u16 | let x : u8 = 1w;
type x u8 bool | let x : u8 = y; let y : bool = true;
type x u16 u8 | let x : u16 = input PORTB;
type x u16 u8 | let x : u16 = table { 1w, 2 };
type x u8 bool | let x : u8 = init true in { };
type x u8 u16 | event A = INT priority 1; let x : u8 = init 0 in { A => u16(x); };";

#[test]
fn unlike_types(rt: HostRuntime) -> Result<(), Fail> {
    expect_faults(&rt, UNLIKE)
}

/// Numbers that are too big where they stand.
const OUT_OF_RANGE: &str = "\
literal x | let x : u8 = 256;
literal x | let x : u8 = init 65535 in { };
literal x | let x : u8 = table { 255, 256 };
literal PR2 | setup PR2 = 256;
literal PORTC | output PORTC = 1 + 300;
shift x | let x : u8 = 1 << 8;
shift x | let x : u16 = 1w >> 16;
shift x | let x : bool = 1 >> 65535 == 1w;";

#[test]
fn numbers_out_of_range(rt: HostRuntime) -> Result<(), Fail> {
    expect_faults(&rt, OUT_OF_RANGE)
}

/// Two faults, of which the first in the order of the walk is told.
const TWO_FAULTS: &str = "\
type x u8 u16 | let x : u8 = 1w; output PORTB = true;
type PORTB u8 bool | output PORTB = true; output PORTC = 1w;
type x bool u8 | let x : u8 = !1 + 256;
type x bool u8 | let x : u8 = if 1 then 2 else 1w;
type x u8 u16 | event A = INT priority 1; let x : u8 = init 1w in { A => true; };";

#[test]
fn first_of_two(rt: HostRuntime) -> Result<(), Fail> {
    expect_faults(&rt, TWO_FAULTS)
}

const TYPED: &str = "event Tick = TMR2 priority 2;
event Push = INT priority 3;
setup PR2 = 255;
let wave : u16 = table { 0w, 65535w };
let knob : u8 = input PORTB;
let key : u8 = input PORTD;
let n : u16 = init 0w in { Tick => n + wave[knob] >> 15; };
let big : bool = n > u16(key) << 8 && !(knob == 255);
let low : u8 = if big then u8(n) else u8(big) << 7;
output PORTC = low | ~knob;
";

/// The source of the event of this name, if there is one.
fn source_of(t: &Typed, name: &Text) -> Option<Source> {
    let n = t.event_number(name)?;
    if (n as usize) < t.program().events.len() {
        Some(t.event_source(n))
    } else {
        None
    }
}

#[test]
fn numbers_and_types(rt: HostRuntime) -> Result<(), Fail> {
    let alloc = rt.alloc();
    match typed(alloc, TYPED)? {
        Err(_fault) => assert!(rt; false),
        Ok(t) => {
            for (name, event, decl) in [
                ("Tick", Some(0), None),
                ("Push", Some(1), None),
                ("wave", None, Some(0)),
                ("low", None, Some(5)),
                ("PR2", None, None),
            ] {
                let text = Text::new(alloc, name)?;
                assert!(rt; t.event_number(&text) == event, "{name}");
                assert!(rt; t.decl_number(&text) == decl, "{name}");
            }
            assert!(rt; source_of(&t, &Text::new(alloc, "Tick")?) == Some(Source::Tmr2));
            assert!(rt; source_of(&t, &Text::new(alloc, "Push")?) == Some(Source::Int));
            assert!(rt; t.inputs() == 2);
            assert!(rt; t.ty(&Expr::Const(Lit::Wide(7))) == Ty::U16);
            let seven = Box::new(alloc, Expr::Const(Lit::Plain(7)))?;
            let eight = Box::new(alloc, Expr::Const(Lit::Plain(8)))?;
            assert!(rt; t.ty(&Expr::Binary(BinOp::Lt, seven, eight)) == Ty::Bool);
        }
    }
    Ok(())
}

/// Nothing is asked of a program that has nothing.
#[test]
fn empty_program(rt: HostRuntime) -> Result<(), Fail> {
    let none = Text::new(rt.alloc(), "n")?;
    match typed(rt.alloc(), "")? {
        Err(_fault) => assert!(rt; false),
        Ok(t) => {
            assert!(rt; t.event_number(&none) == None);
            assert!(rt; t.decl_number(&none) == None);
            assert!(rt; t.inputs() == 0);
        }
    }
    Ok(())
}
