// The template of an operation.

ghost use Rattle.std.specs.Prelude.{◌≡◌, IsTrue, IfOk};
ghost use Rattle.byte_ops.specs.Kinds.{IsOp};
ghost use Rattle.op_templates.specs.Templates.{has_template, template_of};

use crate::comparisons::comparison;
use crate::moves::{bits, choice, made_of_a, negation, set};
use crate::shifts::shift;
use crate::sums::sum;
use byte_ops::Op;
use code_acts::{Act, FileOp};
use std::alloc::{AllocError, Global};

/// The template of an operation, any but a product: acts that do it for the bytes that have its names. The cells of the operation
/// don't matter. Its operator is of its kind, and it shifts by at most 7 bits, or 15 where it is wide. Fails where memory runs out.
pub fn template(alloc: Global, op: &Op) -> Result<Vec<Act>, AllocError>
    requires kind { IsOp op.now }
    requires no_product { IsTrue (has_template op.now) }
    ensures { IfOk result (λ acts. acts.items ≡ template_of op.now) }
{
    match *op {
        Op::Set { k, .. } => set(alloc, k),
        Op::Copy { .. } => made_of_a(alloc, FileOp::Mov),
        Op::Com { .. } => made_of_a(alloc, FileOp::Com),
        Op::Not { .. } => negation(alloc),
        Op::Bits { f, .. } | Op::Logic { f, .. } => bits(alloc, f),
        Op::Sum { f, wide, .. } => sum(alloc, f, wide),
        Op::Compare { f, wide, .. } => comparison(alloc, f, wide),
        Op::Choose { wide, .. } => choice(alloc, wide),
        Op::Shift { side, wide, n, .. } => shift(alloc, side, wide, n),
        Op::Product { .. } => Ok(vec![in alloc]?),
    }
}
