// Templates of operations on bytes.

ghost use Rattle.std.specs.Prelude.{◌<◌};

use byte_ops::{Op, Pair};
use code_acts::{Act, ConstOp, FileOp, Name, Places, instructions};
use code_steps::Bank;
use frp_tree::{BinOp, Side};
use op_templates::template;
use pic_isa::Dest;
use std::alloc::{AllocError, Global};
use std::test::Fail;

const PAIR: Pair = Pair { low: 0, high: 1 };

#[test]
fn single_bytes_have_templates(rt: HostRuntime) -> Result<(), Fail> {
    let (to, a, b) = (0, 1, 2);
    let set = template(rt.alloc(), &Op::Set { to, k: 7 })?;
    let expected = [Act::Const(ConstOp::MovK, 7), Act::Store(Name::To)];
    assert!(rt; set.as_slice() == expected.as_slice());
    assert!(rt; template(rt.alloc(), &Op::Copy { to, a })?.len() == 2);
    assert!(rt; template(rt.alloc(), &Op::Com { to, a })?.len() == 2);
    assert!(rt; template(rt.alloc(), &Op::Not { to, a })?.len() == 3);
    let f = BinOp::BitXor;
    let bits = template(rt.alloc(), &Op::Bits { f, to, a, b })?;
    let expected = [
        Act::File(FileOp::Mov, Name::A, Dest::W),
        Act::File(FileOp::Xor, Name::B, Dest::W),
        Act::Store(Name::To),
    ];
    assert!(rt; bits.as_slice() == expected.as_slice());
    let f = BinOp::Or;
    assert!(rt; template(rt.alloc(), &Op::Logic { f, to, a, b })?.len() == 3);
    Ok(())
}

// The number of acts by which a wide number is shifted.
fn acts_of_shift(alloc: Global, side: Side, n: u8) -> Result<usize, AllocError>
    requires { n < 16 }
{
    let shift = Op::Shift {
        side,
        wide: true,
        n,
        to: PAIR,
        a: PAIR,
    };
    Ok(template(alloc, &shift)?.len())
}

#[test]
fn wide_numbers_have_templates(rt: HostRuntime) -> Result<(), Fail> {
    let (f, wide, a, b) = (BinOp::Lt, true, PAIR, PAIR);
    let less = Op::Compare {
        f,
        wide,
        to: 0,
        a,
        b,
    };
    assert!(rt; template(rt.alloc(), &less)?.len() == 12);
    let (to, c) = (PAIR, 2);
    let choice = Op::Choose { wide, to, c, a, b };
    assert!(rt; template(rt.alloc(), &choice)?.len() == 13);
    assert!(rt; acts_of_shift(rt.alloc(), Side::Left, 4)? == 9);
    assert!(rt; acts_of_shift(rt.alloc(), Side::Right, 15)? == 4);
    Ok(())
}

// Each byte lies in another bank than the one before it, and both bank bits differ.
#[test]
fn wide_sum_has_twenty_words(rt: HostRuntime) -> Result<(), Fail> {
    let (f, wide, to, a, b) = (BinOp::Add, true, PAIR, PAIR, PAIR);
    let sum = Op::Sum { f, wide, to, a, b };
    let acts = template(rt.alloc(), &sum)?;
    let places = Places {
        to: 0x020,
        to_high: 0x190,
        a: 0x191,
        a_high: 0x021,
        b: 0x022,
        b_high: 0x192,
        c: 0x023,
    };
    let coded = instructions(rt.alloc(), acts.as_slice(), places, Bank::Unknown)?;
    assert!(rt; coded.code.len() == 20);
    assert!(rt; coded.bank == Bank::Known(3));
    Ok(())
}
