// Programs are printed with the fewest brackets and a line for each item.
use efrp_syntax::{fewest_brackets, one_program, one_tree, parse, print, print_and_parse};
use frp_tree::{
    Behaviour, BinOp, Clause, Decl, Event, Expr, List, Lit, Output, Program, Setup, Side, Text, Ty,
    UnOp,
};
use std::alloc::{AllocError, AllocFailed, Global};
use std::test::Fail;

fn name(alloc: Global, text: &str) -> Result<Expr, AllocError> {
    Ok(Expr::Name(Text::new(alloc, text)?))
}

fn binary(alloc: Global, op: BinOp, a: Expr, b: Expr) -> Result<Expr, Fail> {
    Ok(Expr::Binary(op, Box::new(alloc, a)?, Box::new(alloc, b)?))
}

fn choice(alloc: Global, c: Expr, a: Expr, b: Expr) -> Result<Expr, Fail> {
    Ok(Expr::If(
        Box::new(alloc, c)?,
        Box::new(alloc, a)?,
        Box::new(alloc, b)?,
    ))
}

fn shift(alloc: Global, side: Side, a: Expr, n: u16) -> Result<Expr, Fail> {
    Ok(Expr::Shift(side, Box::new(alloc, a)?, n))
}

/// A program of these outputs alone, all to one port.
fn outputs_of(alloc: Global, exprs: Vec<Expr>) -> Result<Program, Fail> {
    let mut outputs = List::new(alloc);
    for expr in exprs {
        outputs.push(Output {
            port: Text::new(alloc, "P")?,
            expr,
        })?;
    }
    Ok(Program {
        events: List::new(alloc),
        setups: List::new(alloc),
        decls: List::new(alloc),
        outputs,
    })
}

/// One decl that adds one to `n` on each event `Tick`.
fn counter_decl(alloc: Global) -> Result<Decl, Fail> {
    let mut clauses = List::new(alloc);
    let expr = binary(
        alloc,
        BinOp::Add,
        name(alloc, "n")?,
        Expr::Const(Lit::Plain(1)),
    )?;
    clauses.push(Clause {
        event: Text::new(alloc, "Tick")?,
        expr,
        later: false,
    })?;
    Ok(Decl {
        name: Text::new(alloc, "n")?,
        ty: Ty::U8,
        behaviour: Behaviour::Reactive {
            init: Lit::Plain(0),
            clauses,
        },
    })
}

fn table_decl(alloc: Global) -> Result<Decl, Fail> {
    let mut entries = List::new(alloc);
    entries.push(Lit::Plain(7))?;
    entries.push(Lit::Wide(65_535))?;
    entries.push(Lit::Truth(true))?;
    Ok(Decl {
        name: Text::new(alloc, "t")?,
        ty: Ty::U16,
        behaviour: Behaviour::Table(entries),
    })
}

#[test]
fn counter_of_ticks(rt: HostRuntime) -> Result<(), Fail> {
    let alloc = rt.alloc();
    let mut program = outputs_of(alloc, vec![in alloc; name(alloc, "n")?]?)?;
    program.events.push(Event {
        name: Text::new(alloc, "Tick")?,
        source: Text::new(alloc, "INT")?,
        priority: 1,
    })?;
    program.setups.push(Setup {
        register: Text::new(alloc, "TRISB")?,
        byte: 0,
    })?;
    program.decls.push(counter_decl(alloc)?)?;
    program.decls.push(table_decl(alloc)?)?;
    let text = print(alloc, &program)?;
    let lines: &[u8] =
        b"event Tick = INT priority 1 ;\nsetup TRISB = 0 ;\nlet n : u8 = init 0 in { Tick => n + 1 ; } ;\nlet t : u16 = table { 7 , 65535w , true } ;\noutput P = n ;\n";
    assert!(rt; text.as_slice() == lines);
    Ok(())
}

fn bracketed(alloc: Global) -> Result<Vec<Expr>, Fail> {
    let mut exprs = Vec::new(alloc);
    let sum = binary(alloc, BinOp::Add, name(alloc, "a")?, name(alloc, "b")?)?;
    exprs.push(binary(alloc, BinOp::Mul, sum, name(alloc, "c")?)?)?;
    let right = binary(alloc, BinOp::Sub, name(alloc, "b")?, name(alloc, "c")?)?;
    exprs.push(binary(alloc, BinOp::Sub, name(alloc, "a")?, right)?)?;
    let less = binary(alloc, BinOp::Lt, name(alloc, "a")?, name(alloc, "b")?)?;
    exprs.push(binary(alloc, BinOp::Eq, less, name(alloc, "c")?)?)?;
    exprs.push(Expr::Unary(UnOp::Not, Box::new(alloc, name(alloc, "a")?)?))?;
    Ok(exprs)
}

fn chosen(alloc: Global) -> Result<Vec<Expr>, Fail> {
    let mut exprs = Vec::new(alloc);
    let inner = choice(
        alloc,
        name(alloc, "a")?,
        name(alloc, "b")?,
        name(alloc, "c")?,
    )?;
    exprs.push(binary(alloc, BinOp::Add, inner, name(alloc, "d")?)?)?;
    let sum = binary(alloc, BinOp::Add, name(alloc, "c")?, name(alloc, "d")?)?;
    exprs.push(choice(alloc, name(alloc, "a")?, name(alloc, "b")?, sum)?)?;
    let once = shift(alloc, Side::Right, name(alloc, "a")?, 1)?;
    exprs.push(shift(alloc, Side::Left, once, 2)?)?;
    let table = Text::new(alloc, "t")?;
    exprs.push(Expr::Look(table, Box::new(alloc, name(alloc, "a")?)?))?;
    exprs.push(Expr::Convert(Ty::U16, Box::new(alloc, Expr::Const(Lit::Wide(500)))?))?;
    Ok(exprs)
}

#[test]
fn read_and_printed_again(rt: HostRuntime) -> Result<(), Fail> {
    let text = b"let a : u8 = (x) + ((y * 2)); // a comment\noutput P = ((a) - (b - 0x10w));";
    let program = parse(rt.alloc(), text)?;
    let again = print_and_parse(rt.alloc(), &program)?;
    let printed = print(rt.alloc(), &again)?;
    let lines: &[u8] = b"let a : u8 = x + y * 2 ;\noutput P = a - ( b - 16w ) ;\n";
    assert!(rt; printed.as_slice() == lines);
    Ok(())
}

/// Whether just this is printed of a program of these outputs.
fn are_printed(alloc: Global, exprs: Vec<Expr>, lines: &str) -> Result<bool, Fail> {
    let program = outputs_of(alloc, exprs)?;
    let text = print(alloc, &program)?;
    Ok(text.as_slice() == lines.as_bytes())
}

const BRACKETED: &str = "output P = ( a + b ) * c ;
output P = a - ( b - c ) ;
output P = ( a < b ) == c ;
output P = ! a ;\n";

#[test]
fn brackets_where_they_are_needed(rt: HostRuntime) -> Result<(), Fail> {
    assert!(rt; are_printed(rt.alloc(), bracketed(rt.alloc())?, BRACKETED)?);
    Ok(())
}

const CHOSEN: &str = "output P = ( if a then b else c ) + d ;
output P = if a then b else c + d ;
output P = a >> 1 << 2 ;
output P = t [ a ] ;
output P = u16 ( 500w ) ;\n";

#[test]
fn choices_shifts_and_look_ups(rt: HostRuntime) -> Result<(), Fail> {
    assert!(rt; are_printed(rt.alloc(), chosen(rt.alloc())?, CHOSEN)?);
    Ok(())
}

#[test]
fn a_row_of_the_most_nodes(rt: HostRuntime) -> Result<(), Fail> {
    let alloc = rt.alloc();
    let mut row = name(alloc, "a")?;
    for _ in 0..2_047 {
        row = binary(alloc, BinOp::Add, row, name(alloc, "a")?)?;
    }
    let program = outputs_of(
        alloc,
        vec![in alloc; Expr::Unary(UnOp::Com, Box::new(alloc, row)?)]?,
    )?;
    let text = print(alloc, &program)?;
    // 2,048 names, 2,047 marks, the sign and two brackets, each with a space; and the rest of the line.
    assert_eq!(rt; text.len(), 2 * (2_048 + 2_047 + 3) + 13);
    Ok(())
}

#[test]
fn laws_take_no_memory(_rt: HostRuntime) {
    one_tree();
    one_program();
    fewest_brackets();
}
