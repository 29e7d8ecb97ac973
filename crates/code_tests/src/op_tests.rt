// The code of each kind of operation, run by the simulator over cells in four banks.

ghost use Rattle.std.specs.Prelude.{◌≡◌, ◌<◌, IfOk, IfSome, IsTrue, nat_le};
ghost use Rattle.std.specs.List.{AllByRecursion};
ghost use Rattle.bank_alloc.specs.Needs.{bytes_of};
ghost use Rattle.byte_ops.specs.Kinds.{most_shifted};
ghost use Rattle.code_items.specs.Items.{ItemFits, OnceEach};
ghost use Rattle.code_tests.specs.Operations.{is_op_on};

use bank_alloc::{Needs, Places, place};
use byte_ops::{Op, Pair, run};
use code_items::Code;
use frp_tree::{BinOp, List, Side};
use hex_file::Image;
use op_code::{Bank, code_in};
use page_layout::layout;
use pic_machine::Chip;
use pic_regs::Start;
use std::alloc::{AllocError, Global};
use std::test::Fail;

// The result lies in banks 3 and 0, A in banks 1 and 2, B in banks 0 and 3, C in bank 1.
const TO: Pair = Pair { low: 300, high: 10 };

const A: Pair = Pair {
    low: 100,
    high: 200,
};

const B: Pair = Pair { low: 5, high: 290 };

const C: u16 = 90;

// All banked bytes are cells.
pub(crate) fn places() -> Option<Places>
    ensures { IfSome result (λ places. bytes_of places.need ≡ 352) }
{
    let need = Needs {
        states: 352,
        levels: 0,
        scratch: 0,
    };
    place(&need).ok()
}

// The code of an operation, begun in this bank.
fn coded(alloc: Global, op: &Op, places: &Places, bank: Bank) -> Result<Code, AllocError>
    requires all { bytes_of places.now.need ≡ 352 }
    requires on { IsTrue (is_op_on 352 op.now) }
    ensures fit { IfOk result (λ code. AllByRecursion ItemFits code.items) }
    ensures once { IfOk result (λ code. OnceEach code.items) }
{
    let coded = code_in(alloc, op, places, bank)?;
    Ok(coded.code)
}

// The chip with these cells, about to run code of fewer than 1,000 items at its first address.
pub(crate) fn powered(alloc: Global, code: &Code, cells: &[u8; 352]) -> Option<Chip>
    requires fit { AllByRecursion ItemFits code.now.items }
    requires once { OnceEach code.now.items }
{
    if code.items.len() >= 1000 {
        return None;
    }
    let laid = layout(alloc, code).ok()?;
    let image = Image {
        words: laid.words,
        config: None,
        aside: List::new(alloc),
    };
    let mut ram = [0x00; 368];
    for k in 0..352_usize {
        ram[if k < 80 { k } else { k + 16 }] = cells[k];
    }
    let start = Start {
        ram,
        w: 0x5A,
        flags: 0x07,
    };
    Some(Chip::power_on(&image, &start))
}

// Runs the code to its end, in at most as many steps as it has items.
pub(crate) fn run_code(chip: &mut Chip, code: &Code) {
    for _ in 0..code.items.len() {
        if usize::from(chip.pc()) < code.items.len() {
            let _ = chip.step(0x000, false);
        }
    }
}

// The chip has these cells.
fn shows(chip: &Chip, places: &Places, cells: &[u8; 352]) -> bool
    requires { bytes_of places.now.need ≡ 352 }
{
    for k in 0..352_u32 {
        if chip.regs().read(places.address(k)) != cells[k as usize] {
            return false;
        }
    }
    true
}

fn put(cells: &mut [u8; 352], pair: Pair, number: u16)
    requires low { pair.low < 352 }
    requires high { pair.high < 352 }
{
    cells[pair.low as usize] = (number % 256) as u8;
    cells[pair.high as usize] = (number / 256) as u8;
}

fn do_op(op: &Op, cells: &mut [u8; 352])
    requires { IsTrue (is_op_on 352 op.now) }
{
    run(op, cells);
}

// The bytes of the result, where the code leaves in all cells what the operation does, from A, B and C.
fn outcome(
    alloc: Global,
    op: &Op,
    bank: Bank,
    a: u16,
    b: u16,
    c: u8,
) -> Result<Option<(u8, u8)>, AllocError>
    requires { IsTrue (is_op_on 352 op.now) }
{
    let mut cells = [0xA5; 352];
    put(&mut cells, A, a);
    put(&mut cells, B, b);
    cells[C as usize] = c;
    let Some(places) = places() else {
        return Ok(None);
    };
    let code = coded(alloc, op, &places, bank)?;
    let Some(mut chip) = powered(alloc, &code, &cells) else {
        return Ok(None);
    };
    run_code(&mut chip, &code);
    do_op(op, &mut cells);
    let agrees = usize::from(chip.pc()) == code.items.len() && shows(&chip, &places, &cells);
    Ok(if agrees {
        Some((cells[TO.low as usize], cells[TO.high as usize]))
    } else {
        None
    })
}

// The first of these numbers, as A and B, at which the code doesn't do what the operation does; C is the same at each.
fn fault_among(
    alloc: Global,
    op: &Op,
    numbers: &[u16],
    c: u8,
) -> Result<Option<(u16, u16)>, AllocError>
    requires { IsTrue (is_op_on 352 op.now) }
{
    for a in numbers {
        for b in numbers {
            if outcome(alloc, op, Bank::Unknown, *a, *b, c)?.is_none() {
                return Ok(Some((*a, *b)));
            }
        }
    }
    Ok(None)
}

fn fault_of_bools(alloc: Global, op: &Op) -> Result<Option<(u16, u16)>, AllocError>
    requires { IsTrue (is_op_on 352 op.now) }
{
    fault_among(alloc, op, &[0, 1], 0)
}

// Numbers at the edges of their ranges, and code that is begun in bank 0.
fn fault_of_numbers(alloc: Global, op: &Op) -> Result<Option<(u16, u16)>, AllocError>
    requires { IsTrue (is_op_on 352 op.now) }
{
    if outcome(alloc, op, Bank::Known(0), 129, 200, 0)?.is_none() {
        return Ok(Some((129, 200)));
    }
    fault_among(alloc, op, &[0, 1, 127, 128, 255, 256, 65535], 1)
}

// The operation of an operator on A and B. One on bits or on bools has bytes alone, and a comparison's result is one.
fn operation(f: BinOp, wide: bool) -> Op
    ensures { IsTrue (is_op_on 352 result) }
{
    let (to, a, b) = (TO, A, B);
    match f {
        BinOp::Add | BinOp::Sub => Op::Sum { f, wide, to, a, b },
        BinOp::Mul | BinOp::Div | BinOp::Rem => Op::Product { f, wide, to, a, b },
        BinOp::BitAnd | BinOp::BitOr | BinOp::BitXor => {
            let (to, a, b) = (TO.low, A.low, B.low);
            Op::Bits { f, to, a, b }
        }
        BinOp::And | BinOp::Or => {
            let (to, a, b) = (TO.low, A.low, B.low);
            Op::Logic { f, to, a, b }
        }
        BinOp::Eq | BinOp::Ne | BinOp::Lt | BinOp::Le | BinOp::Gt | BinOp::Ge => {
            let to = TO.low;
            Op::Compare { f, wide, to, a, b }
        }
    }
}

#[test]
fn bools_agree(rt: HostRuntime) -> Result<(), Fail> {
    let negation = fault_of_bools(rt.alloc(), &Op::Not { to: 300, a: 100 })?;
    assert_eq!(rt; negation, None);
    for f in [BinOp::And, BinOp::Or] {
        let fault = fault_of_bools(rt.alloc(), &operation(f, false))?;
        assert_eq!(rt; fault, None, "{f:?}");
    }
    Ok(())
}

// Operators on numbers, and whether they are tried on words.
const OPERATORS: &[(&str, bool, &[BinOp])] = &[
    (
        "bits_agree",
        false,
        &[BinOp::BitAnd, BinOp::BitOr, BinOp::BitXor],
    ),
    ("sums_agree", false, &[BinOp::Add, BinOp::Sub]),
    ("wide_sums_agree", true, &[BinOp::Add, BinOp::Sub]),
    ("equals_agree", false, &[BinOp::Eq, BinOp::Ne]),
    ("wide_equals_agree", true, &[BinOp::Eq, BinOp::Ne]),
    (
        "orders_agree",
        false,
        &[BinOp::Lt, BinOp::Le, BinOp::Gt, BinOp::Ge],
    ),
    (
        "wide_orders_agree",
        true,
        &[BinOp::Lt, BinOp::Le, BinOp::Gt, BinOp::Ge],
    ),
    (
        "products_agree",
        false,
        &[BinOp::Mul, BinOp::Div, BinOp::Rem],
    ),
    (
        "wide_products_agree",
        true,
        &[BinOp::Mul, BinOp::Div, BinOp::Rem],
    ),
];

#[test]
fn operators_agree(rt: HostRuntime) -> Result<(), Fail> {
    for (name, wide, operators) in OPERATORS {
        for f in *operators {
            let fault = fault_of_numbers(rt.alloc(), &operation(*f, *wide))?;
            assert_eq!(rt; fault, None, "{name}: {f:?}");
        }
    }
    Ok(())
}

fn shift(side: Side, wide: bool, n: u8) -> Op
    requires { IsTrue (nat_le n (most_shifted wide)) }
    ensures { IsTrue (is_op_on 352 result) }
{
    let (to, a) = (TO, A);
    Op::Shift {
        side,
        wide,
        n,
        to,
        a,
    }
}

const OTHERS: usize = 8;

// The operations on numbers that have no operator, and shifts, by numbers below `OTHERS`.
fn other(number: usize) -> Op
    ensures { IsTrue (is_op_on 352 result) }
{
    let (to, c, a, b) = (TO, C, A, B);
    match number {
        0 => Op::Set { to: 300, k: 200 },
        1 => Op::Copy { to: 300, a: 100 },
        2 => Op::Com { to: 300, a: 100 },
        3 => Op::Choose {
            wide: false,
            to,
            c,
            a,
            b,
        },
        4 => Op::Choose {
            wide: true,
            to,
            c,
            a,
            b,
        },
        5 => shift(Side::Right, false, 3),
        6 => shift(Side::Right, true, 5),
        _ => shift(Side::Left, true, 12),
    }
}

#[test]
fn moves_choices_and_shifts_agree(rt: HostRuntime) -> Result<(), Fail> {
    for number in 0..OTHERS {
        let fault = fault_of_numbers(rt.alloc(), &other(number))?;
        assert_eq!(rt; fault, None, "{number}");
    }
    Ok(())
}

#[test]
fn results_are_known(rt: HostRuntime) -> Result<(), Fail> {
    // A, B, an operator, whether it is on words, and the bytes of its result. A quotient of bytes leaves the high one.
    let cases = [
        (255, 1, BinOp::Add, true, (0, 1)),
        (200, 0, BinOp::Div, false, (255, 0xA5)),
        (200, 0, BinOp::Rem, false, (200, 0xA5)),
        (255, 129, BinOp::Div, false, (1, 0xA5)),
        (255, 129, BinOp::Rem, false, (126, 0xA5)),
        (65535, 65535, BinOp::Mul, true, (1, 0)),
    ];
    for (a, b, f, wide, bytes) in cases {
        let found = outcome(rt.alloc(), &operation(f, wide), Bank::Unknown, a, b, 0)?;
        assert_eq!(rt; found, Some(bytes), "{a} {f:?} {b}");
    }
    let by_fifteen = shift(Side::Left, true, 15);
    let found = outcome(rt.alloc(), &by_fifteen, Bank::Unknown, 1, 0, 0)?;
    assert_eq!(rt; found, Some((0, 128)));
    Ok(())
}
