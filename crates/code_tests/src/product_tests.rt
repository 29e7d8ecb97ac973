// The acts of products and quotients.

ghost use Rattle.std.specs.Prelude.{IsTrue};
ghost use Rattle.byte_ops.specs.Kinds.{is_product};

use code_acts::{Act, FileOp, Name};
use frp_tree::BinOp;
use pic_isa::Dest;
use product_templates::product_template;
use std::alloc::{AllocError, Global};
use std::test::Fail;

// The template begins with the copy of A to an operand byte, ends with the copy of the result, and has so many acts.
fn is_made(alloc: Global, f: BinOp, wide: bool, number: usize) -> Result<bool, AllocError>
    requires { IsTrue (is_product f) }
{
    let acts = product_template(alloc, f, wide)?;
    let begin = [
        Act::File(FileOp::Mov, Name::A, Dest::W),
        Act::Store(Name::Operand0),
    ];
    let end = [Act::Store(if wide { Name::ToHigh } else { Name::To })];
    Ok(acts.len() == number && acts.starts_with(&begin) && acts.ends_with(&end))
}

#[test]
fn products_quotients_and_rests_are_made(rt: HostRuntime) -> Result<(), Fail> {
    assert!(rt; is_made(rt.alloc(), BinOp::Mul, false, 34)?);
    assert!(rt; is_made(rt.alloc(), BinOp::Mul, true, 97)?);
    assert!(rt; is_made(rt.alloc(), BinOp::Div, false, 80)?);
    assert!(rt; is_made(rt.alloc(), BinOp::Div, true, 368)?);
    assert!(rt; is_made(rt.alloc(), BinOp::Rem, false, 79)?);
    assert!(rt; is_made(rt.alloc(), BinOp::Rem, true, 366)?);
    Ok(())
}
