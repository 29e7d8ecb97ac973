// The templates of comparisons.

ghost use Rattle.std.specs.Prelude.{◌≡◌, ◌++◌, IsTrue, IfOk};
ghost use Rattle.byte_ops.specs.Kinds.{is_compare};
ghost use Rattle.op_templates.specs.Comparisons.{compare_template, differ, not_above_in, told_by};

use code_acts::{Act, ConstOp, FileOp, Name};
use frp_tree::BinOp;
use pic_isa::Dest;
use std::alloc::{AllocError, Global};

// Acts and, behind them, 1 where the test skips, and else 0.
fn told_by(mut acts: Vec<Act>, test: Act) -> Result<Vec<Act>, AllocError>
    ensures { IfOk result (λ all. all.items ≡ acts.items ++ told_by test) }
{
    acts.extend_from_slice(&[
        Act::Const(ConstOp::MovK, 1),
        test,
        Act::Const(ConstOp::MovK, 0),
        Act::Store(Name::To),
    ])?;
    Ok(acts)
}

// The names of a number's bytes.
#[derive(Clone, Copy)]
struct Number {
    low: Name,
    high: Name,
}

const A: Number = Number {
    low: Name::A,
    high: Name::AHigh,
};

const B: Number = Number {
    low: Name::B,
    high: Name::BHigh,
};

// 1 where y isn't above x, or where it is, as the test of C says.
fn order(alloc: Global, wide: bool, y: Number, x: Number, test: Act) -> Result<Vec<Act>, AllocError>
    ensures { IfOk result (λ acts. acts.items ≡ not_above_in wide y.low y.high x.low x.high (told_by test)) }
{
    if wide {
        let acts = vec![in alloc;
            Act::File(FileOp::Mov, x.high, Dest::W),
            Act::Store(Name::Operand0),
            Act::File(FileOp::Mov, y.low, Dest::W),
            Act::File(FileOp::Sub, x.low, Dest::W),
            Act::File(FileOp::Mov, y.high, Dest::W),
            Act::SkipCarry(true),
            Act::File(FileOp::IncSkip, y.high, Dest::W),
            Act::File(FileOp::Sub, Name::Operand0, Dest::W),
        ]?;
        told_by(acts, test)
    } else {
        let acts = vec![in alloc;
            Act::File(FileOp::Mov, y.low, Dest::W),
            Act::File(FileOp::Sub, x.low, Dest::W),
        ]?;
        told_by(acts, test)
    }
}

// 1 where A and B are equal or where they differ, as the test of Z says.
fn equality(alloc: Global, wide: bool, test: Act) -> Result<Vec<Act>, AllocError>
    ensures { IfOk result (λ acts. acts.items ≡ differ wide (told_by test)) }
{
    if !wide {
        return order(alloc, false, B, A, test);
    }
    let acts = vec![in alloc;
        Act::File(FileOp::Mov, Name::B, Dest::W),
        Act::File(FileOp::Sub, Name::A, Dest::W),
        Act::Store(Name::Operand0),
        Act::File(FileOp::Mov, Name::BHigh, Dest::W),
        Act::File(FileOp::Sub, Name::AHigh, Dest::W),
        Act::File(FileOp::Ior, Name::Operand0, Dest::W),
    ]?;
    told_by(acts, test)
}

// A comparison of A and B.
pub(crate) fn comparison(alloc: Global, f: BinOp, wide: bool) -> Result<Vec<Act>, AllocError>
    requires { IsTrue (is_compare f) }
    ensures { IfOk result (λ acts. acts.items ≡ compare_template f wide) }
{
    match f {
        BinOp::Eq => equality(alloc, wide, Act::SkipZero(true)),
        BinOp::Ne => equality(alloc, wide, Act::SkipZero(false)),
        BinOp::Lt => order(alloc, wide, B, A, Act::SkipCarry(false)),
        BinOp::Le => order(alloc, wide, A, B, Act::SkipCarry(true)),
        BinOp::Gt => order(alloc, wide, A, B, Act::SkipCarry(false)),
        _ => order(alloc, wide, B, A, Act::SkipCarry(true)),
    }
}
