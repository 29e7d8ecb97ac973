// The templates of operations without a carry, and of a choice.

ghost use Rattle.std.specs.Prelude.{◌≡◌, ◌++◌, [], IfOk};
ghost use Rattle.op_templates.specs.Choices.{choose_template, picked};
ghost use Rattle.op_templates.specs.Moves.{bit_op, bits_template, made_of_a, not_template, set_template};

use code_acts::{Act, ConstOp, FileOp, Name};
use frp_tree::BinOp;
use pic_isa::Dest;
use std::alloc::{AllocError, Global};

// A constant.
pub(crate) fn set(alloc: Global, k: u8) -> Result<Vec<Act>, AllocError>
    ensures { IfOk result (λ acts. acts.items ≡ set_template k) }
{
    Ok(vec![in alloc; Act::Const(ConstOp::MovK, k), Act::Store(Name::To)]?)
}

// What an operation makes of A: a copy, or each bit turned.
pub(crate) fn made_of_a(alloc: Global, op: FileOp) -> Result<Vec<Act>, AllocError>
    ensures { IfOk result (λ acts. acts.items ≡ made_of_a op) }
{
    Ok(vec![in alloc; Act::File(op, Name::A, Dest::W), Act::Store(Name::To)]?)
}

// A bool turned.
pub(crate) fn negation(alloc: Global) -> Result<Vec<Act>, AllocError>
    ensures { IfOk result (λ acts. acts.items ≡ not_template) }
{
    Ok(vec![in alloc;
        Act::File(FileOp::Mov, Name::A, Dest::W),
        Act::Const(ConstOp::XorK, 1),
        Act::Store(Name::To),
    ]?)
}

// What an operator on bits or on bools does bit by bit.
fn bit_op(f: BinOp) -> FileOp
    ensures { result ≡ bit_op f }
{
    match f {
        BinOp::And | BinOp::BitAnd => FileOp::And,
        BinOp::BitXor => FileOp::Xor,
        _ => FileOp::Ior,
    }
}

// `&`, `|`, `^`, `&&` and `||`.
pub(crate) fn bits(alloc: Global, f: BinOp) -> Result<Vec<Act>, AllocError>
    ensures { IfOk result (λ acts. acts.items ≡ bits_template f) }
{
    Ok(vec![in alloc;
        Act::File(FileOp::Mov, Name::A, Dest::W),
        Act::File(bit_op(f), Name::B, Dest::W),
        Act::Store(Name::To),
    ]?)
}

// Acts and, behind them, those that take the byte x where the test skips, and else y.
fn picked(mut acts: Vec<Act>, test: Act, x: Name, y: Name, to: Name) -> Result<Vec<Act>, AllocError>
    ensures { IfOk result (λ all. all.items ≡ acts.items ++ picked test x y to []) }
{
    acts.extend_from_slice(&[
        Act::File(FileOp::Mov, y, Dest::W),
        Act::Store(Name::Operand0),
        Act::File(FileOp::Mov, x, Dest::W),
        test,
        Act::File(FileOp::Mov, Name::Operand0, Dest::W),
        Act::Store(to),
    ])?;
    Ok(acts)
}

// A where the bool C is 1, and else B.
pub(crate) fn choice(alloc: Global, wide: bool) -> Result<Vec<Act>, AllocError>
    ensures { IfOk result (λ acts. acts.items ≡ choose_template wide) }
{
    if wide {
        let test = Act::SkipCarry(true);
        let acts = vec![in alloc; Act::File(FileOp::Right, Name::C, Dest::W)]?;
        let low = picked(acts, test, Name::A, Name::B, Name::To)?;
        picked(low, test, Name::AHigh, Name::BHigh, Name::ToHigh)
    } else {
        picked(
            vec![in alloc]?,
            Act::SkipBit(true, Name::C, 0),
            Name::A,
            Name::B,
            Name::To,
        )
    }
}
