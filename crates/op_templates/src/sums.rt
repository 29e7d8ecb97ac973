// The templates of `+` and `-`.

ghost use Rattle.std.specs.Prelude.{◌≡◌, IsTrue, IfOk};
ghost use Rattle.byte_ops.specs.Kinds.{is_sum};
ghost use Rattle.op_templates.specs.Sums.{sum_op, sum_template};

use code_acts::{Act, ConstOp, FileOp, Name};
use frp_tree::BinOp;
use pic_isa::Dest;
use std::alloc::{AllocError, Global};

// The operation of `+` or `-` on a byte.
fn sum_op(f: BinOp) -> FileOp
    requires { IsTrue (is_sum f) }
    ensures { result ≡ sum_op f }
{
    match f {
        BinOp::Add => FileOp::Add,
        _ => FileOp::Sub,
    }
}

// `+` or `-`: A plus B, or A minus B.
pub(crate) fn sum(alloc: Global, f: BinOp, wide: bool) -> Result<Vec<Act>, AllocError>
    requires { IsTrue (is_sum f) }
    ensures { IfOk result (λ acts. acts.items ≡ sum_template f wide) }
{
    let op = sum_op(f);
    let mut acts = vec![in alloc;
        Act::File(FileOp::Mov, Name::B, Dest::W),
        Act::File(op, Name::A, Dest::W),
        Act::Store(Name::To),
    ]?;
    if wide {
        acts.extend_from_slice(&[
            Act::File(FileOp::Mov, Name::BHigh, Dest::W),
            Act::SkipCarry(f != BinOp::Add),
            Act::Const(ConstOp::AddK, 1),
            Act::File(op, Name::AHigh, Dest::W),
            Act::Store(Name::ToHigh),
        ])?;
    }
    Ok(acts)
}
