// Source texts have the trees that their authors mean, and broken ones their first faults.
use crate::sources::{
    CONTROLLER, COUNTER, DIVISION, INPUTS, LATER, TABLES, TWO_STATES, in_full, repeated, sizes,
};
use efrp_syntax::SyntaxFault::{self, TooDeep, TooMany};
use efrp_syntax::parse;
use frp_tree::{Behaviour, BinOp, Expr, Kind, Lit, Program, Side, Ty};
use std::alloc::{AllocError, Global};
use std::test::Fail;

/// The counter's tokens, and after how many of them it is a program.
const WORDS: [&str; 34] = [
    "event", "Tick", "=", "INT", "priority", "1", ";", "setup", "TRISB", "=", "0", ";", "let", "n",
    ":", "u8", "=", "init", "0", "in", "{", "Tick", "=>", "n", "+", "1", ";", "}", ";", "output",
    "PORTB", "=", "n", ";",
];

const WHOLE: [usize; 5] = [0, 7, 12, 29, 34];

#[test]
fn worked_sources(rt: HostRuntime) -> Result<(), Fail> {
    for (text, want) in [
        (COUNTER, (1, 1, 1, 1)),
        (TWO_STATES, (1, 0, 2, 1)),
        (LATER, (1, 0, 2, 0)),
        (DIVISION, (2, 0, 2, 0)),
        (CONTROLLER, (4, 5, 5, 2)),
        (INPUTS, (1, 1, 2, 1)),
        (TABLES, (1, 1, 2, 1)),
        ("", (0, 0, 0, 0)),
    ] {
        let program = parse(rt.alloc(), text.as_bytes())?;
        assert!(rt; sizes(&program) == want, "{text}");
    }
    Ok(())
}

/// What a text is refused with.
fn fault_of(alloc: Global, text: &str) -> Option<SyntaxFault> {
    parse(alloc, text.as_bytes()).err()
}

#[test]
fn faults(rt: HostRuntime) -> Result<(), Fail> {
    for (text, want) in [
        ("event @", SyntaxFault::BadByte(6)),
        ("event Tick TMR1", SyntaxFault::Unexpected(2)),
        ("event Tick = INT", SyntaxFault::Unexpected(4)),
        (
            "event abcdefghijklmnopqrstuvwxyz_01234",
            SyntaxFault::TooBig(6),
        ),
        ("let n : u8 = 1 ) ;", SyntaxFault::Unexpected(6)),
        ("output P = 1; let n : u8 = 1;", SyntaxFault::Unexpected(5)),
        ("let n : u8 = a < b < c;", SyntaxFault::Unexpected(8)),
        ("let t : u8 = table { };", SyntaxFault::Unexpected(7)),
        ("let n : u8 = bool(1);", SyntaxFault::Unexpected(5)),
        ("let if : u8 = 1;", SyntaxFault::Unexpected(1)),
    ] {
        assert!(rt; fault_of(rt.alloc(), text) == Some(want), "{text}");
    }
    Ok(())
}

#[test]
fn each_limit(rt: HostRuntime) -> Result<(), Fail> {
    for (want, short) in [
        (TooMany(Kind::Events), "`event A = B priority 1;`11`"),
        (TooMany(Kind::Setups), "`setup A = 1;`32`"),
        (TooMany(Kind::Definitions), "`let n : u8 = 1;`128`"),
        (TooMany(Kind::Outputs), "`output A = 1;`5`"),
        (TooMany(Kind::Nodes), "let n : u8 = ~1` + 1`2047`;"),
        (TooDeep(69), "let n : u8 = `~`64`1;"),
        (TooMany(Kind::Entries), "let t : u8 = table { 0`, 0`255`};"),
        (
            TooMany(Kind::Entries),
            "`let t : u8 = table { 0,1,2,3,4,5,6,7,8,9,0,1,2,3,4,5,6,7,8,9,0,1,2,3,4,5,6,7,8,9,0,1 };`64`",
        ),
    ] {
        let within = in_full(rt.alloc(), short, 0)?;
        assert!(rt; fault_of(rt.alloc(), within.as_str()).is_none(), "{short}");
        let past = in_full(rt.alloc(), short, 1)?;
        let fault = fault_of(rt.alloc(), past.as_str());
        assert!(rt; fault == Some(want), "{short}");
    }
    Ok(())
}

#[test]
fn one_past_the_limits(rt: HostRuntime) -> Result<(), Fail> {
    let alloc = rt.alloc();
    let mut within = repeated(alloc, "let n : u8 =", "(", 64, "1")?;
    within.push_str(repeated(alloc, "", ")", 64, ";")?.as_str())?;
    assert!(rt; fault_of(alloc, within.as_str()).is_none());
    let past = repeated(alloc, "let n : u8 =", "(", 65, "")?;
    assert!(rt; fault_of(alloc, past.as_str()) == Some(TooDeep(69)));
    let many = repeated(alloc, "let n : u8 = ~~1", " + 1", 2_047, ";")?;
    assert!(rt; fault_of(alloc, many.as_str()) == Some(TooMany(Kind::Nodes)));
    Ok(())
}

#[test]
fn cut_before_each_token(rt: HostRuntime) -> Result<(), Fail> {
    let mut text = String::new(rt.alloc());
    for (n, word) in WORDS.iter().enumerate() {
        let want = if WHOLE.contains(&n) {
            None
        } else {
            Some(SyntaxFault::Unexpected(n as u32))
        };
        assert!(rt; fault_of(rt.alloc(), text.as_str()) == want, "{n}");
        text.push_str(word)?;
        text.push_str(" ")?;
    }
    assert!(rt; fault_of(rt.alloc(), text.as_str()).is_none());
    Ok(())
}

/// Whether the program's first definition is `x + 1` later, from 1.
fn adds_one_later(program: &Program) -> bool {
    match program.decls.get(0) {
        Some(decl) => match &decl.behaviour {
            Behaviour::Reactive { init, clauses } => match clauses.get(0) {
                Some(clause) => {
                    *init == Lit::Plain(1)
                        && clause.later
                        && decl.ty == Ty::U8
                        && matches!(&clause.expr, Expr::Binary(BinOp::Add, _, _))
                }
                None => false,
            },
            _ => false,
        },
        None => false,
    }
}

/// Whether the program's last output is a conversion of a shift by 8.
fn shows_high_byte(program: &Program) -> bool {
    match program.outputs.get(1) {
        Some(output) => match &output.expr {
            Expr::Convert(Ty::U8, part) => matches!(&**part, Expr::Shift(Side::Right, _, 8)),
            _ => false,
        },
        None => false,
    }
}

#[test]
fn trees(rt: HostRuntime) -> Result<(), Fail> {
    let later = parse(rt.alloc(), LATER.as_bytes())?;
    assert!(rt; adds_one_later(&later));
    let controller = parse(rt.alloc(), CONTROLLER.as_bytes())?;
    assert!(rt; shows_high_byte(&controller));
    Ok(())
}
