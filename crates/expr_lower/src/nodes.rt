// The operations of one node, by where its operands lie.
ghost use Rattle.std.specs.Prelude.{◌≤◌, IfOk};
ghost use Rattle.expr_lower.specs.Nodes.{Adds, IsByte, of_binary, of_bits, of_compare, of_convert, of_if, of_literal, of_logic, of_product, of_shift, of_sum, of_unary};

use crate::drafts::{Draft, Operand};
use byte_ops::{Op, Pair};
use frp_tree::{BinOp, Lit, Side, Ty, UnOp};
use std::alloc::AllocError;

fn set(draft: &mut Draft, k: u8) -> Result<Operand, AllocError>
    requires { (of_literal draft.old.next (Lit.Plain k)).next ≤ 65536 }
    ensures { IfOk result (Adds draft.old draft.new (of_literal draft.old.next (Lit.Plain k))) }
{
    let to = draft.give_out(false);
    draft.ops.push(Op::Set { to: to.at.low, k })?;
    Ok(to)
}

fn set_wide(draft: &mut Draft, n: u16) -> Result<Operand, AllocError>
    requires { (of_literal draft.old.next (Lit.Wide n)).next ≤ 65536 }
    ensures { IfOk result (Adds draft.old draft.new (of_literal draft.old.next (Lit.Wide n))) }
{
    let to = draft.give_out(true);
    draft.ops.push(Op::Set {
        to: to.at.low,
        k: (n % 256) as u8,
    })?;
    draft.ops.push(Op::Set {
        to: to.at.high,
        k: (n / 256) as u8,
    })?;
    Ok(to)
}

pub(crate) fn literal(draft: &mut Draft, literal: Lit) -> Result<Operand, AllocError>
    requires room { (of_literal draft.old.next literal).next ≤ 65536 }
    requires fits { IsByte literal }
    ensures { IfOk result (Adds draft.old draft.new (of_literal draft.old.next literal)) }
{
    match literal {
        Lit::Plain(n) => set(draft, n as u8),
        Lit::Wide(n) => set_wide(draft, n),
        Lit::Truth(b) => set(draft, u8::from(b)),
    }
}

fn complement(draft: &mut Draft, a: Operand) -> Result<Operand, AllocError>
    requires { (of_unary UnOp.Com draft.old.next a).next ≤ 65536 }
    ensures { IfOk result (Adds draft.old draft.new (of_unary UnOp.Com draft.old.next a)) }
{
    let to = draft.give_out(a.wide);
    draft.ops.push(Op::Com {
        to: to.at.low,
        a: a.at.low,
    })?;
    if a.wide {
        draft.ops.push(Op::Com {
            to: to.at.high,
            a: a.at.high,
        })?;
    }
    Ok(to)
}

pub(crate) fn unary(draft: &mut Draft, f: UnOp, a: Operand) -> Result<Operand, AllocError>
    requires { (of_unary f draft.old.next a).next ≤ 65536 }
    ensures { IfOk result (Adds draft.old draft.new (of_unary f draft.old.next a)) }
{
    match f {
        UnOp::Com => complement(draft, a),
        UnOp::Not => {
            let to = draft.give_out(false);
            draft.ops.push(Op::Not {
                to: to.at.low,
                a: a.at.low,
            })?;
            Ok(to)
        }
    }
}

fn logic(draft: &mut Draft, f: BinOp, a: Operand, b: Operand) -> Result<Operand, AllocError>
    requires { (of_logic f draft.old.next a b).next ≤ 65536 }
    ensures { IfOk result (Adds draft.old draft.new (of_logic f draft.old.next a b)) }
{
    let to = draft.give_out(false);
    draft.ops.push(Op::Logic {
        f,
        to: to.at.low,
        a: a.at.low,
        b: b.at.low,
    })?;
    Ok(to)
}

fn compare(draft: &mut Draft, f: BinOp, a: Operand, b: Operand) -> Result<Operand, AllocError>
    requires { (of_compare f draft.old.next a b).next ≤ 65536 }
    ensures { IfOk result (Adds draft.old draft.new (of_compare f draft.old.next a b)) }
{
    let to = draft.give_out(false);
    draft.ops.push(Op::Compare {
        f,
        wide: a.wide,
        to: to.at.low,
        a: a.at,
        b: b.at,
    })?;
    Ok(to)
}

fn bits(draft: &mut Draft, f: BinOp, a: Operand, b: Operand) -> Result<Operand, AllocError>
    requires { (of_bits f draft.old.next a b).next ≤ 65536 }
    ensures { IfOk result (Adds draft.old draft.new (of_bits f draft.old.next a b)) }
{
    let to = draft.give_out(a.wide);
    draft.ops.push(Op::Bits {
        f,
        to: to.at.low,
        a: a.at.low,
        b: b.at.low,
    })?;
    if a.wide {
        draft.ops.push(Op::Bits {
            f,
            to: to.at.high,
            a: a.at.high,
            b: b.at.high,
        })?;
    }
    Ok(to)
}

fn sum(draft: &mut Draft, f: BinOp, a: Operand, b: Operand) -> Result<Operand, AllocError>
    requires { (of_sum f draft.old.next a b).next ≤ 65536 }
    ensures { IfOk result (Adds draft.old draft.new (of_sum f draft.old.next a b)) }
{
    let to = draft.give_out(a.wide);
    draft.ops.push(Op::Sum {
        f,
        wide: a.wide,
        to: to.at,
        a: a.at,
        b: b.at,
    })?;
    Ok(to)
}

fn product(draft: &mut Draft, f: BinOp, a: Operand, b: Operand) -> Result<Operand, AllocError>
    requires { (of_product f draft.old.next a b).next ≤ 65536 }
    ensures { IfOk result (Adds draft.old draft.new (of_product f draft.old.next a b)) }
{
    let to = draft.give_out(a.wide);
    draft.ops.push(Op::Product {
        f,
        wide: a.wide,
        to: to.at,
        a: a.at,
        b: b.at,
    })?;
    Ok(to)
}

pub(crate) fn binary(
    draft: &mut Draft,
    f: BinOp,
    a: Operand,
    b: Operand,
) -> Result<Operand, AllocError>
    requires { (of_binary f draft.old.next a b).next ≤ 65536 }
    ensures { IfOk result (Adds draft.old draft.new (of_binary f draft.old.next a b)) }
{
    match f {
        BinOp::Or | BinOp::And => logic(draft, f, a, b),
        BinOp::Eq | BinOp::Ne | BinOp::Lt | BinOp::Le | BinOp::Gt | BinOp::Ge => {
            compare(draft, f, a, b)
        }
        BinOp::BitOr | BinOp::BitXor | BinOp::BitAnd => bits(draft, f, a, b),
        BinOp::Add | BinOp::Sub => sum(draft, f, a, b),
        BinOp::Mul | BinOp::Div | BinOp::Rem => product(draft, f, a, b),
    }
}

pub(crate) fn shift(draft: &mut Draft, side: Side, a: Operand, n: u8) -> Result<Operand, AllocError>
    requires { (of_shift side n draft.old.next a).next ≤ 65536 }
    ensures { IfOk result (Adds draft.old draft.new (of_shift side n draft.old.next a)) }
{
    let to = draft.give_out(a.wide);
    draft.ops.push(Op::Shift {
        side,
        wide: a.wide,
        n,
        to: to.at,
        a: a.at,
    })?;
    Ok(to)
}

pub(crate) fn choose(
    draft: &mut Draft,
    c: Operand,
    a: Operand,
    b: Operand,
) -> Result<Operand, AllocError>
    requires { (of_if draft.old.next c a b).next ≤ 65536 }
    ensures { IfOk result (Adds draft.old draft.new (of_if draft.old.next c a b)) }
{
    let to = draft.give_out(a.wide);
    draft.ops.push(Op::Choose {
        wide: a.wide,
        to: to.at,
        c: c.at.low,
        a: a.at,
        b: b.at,
    })?;
    Ok(to)
}

// `u8( )` of either width is the low cell. `u16( )` is of one byte, above which a zero is set.
pub(crate) fn convert(draft: &mut Draft, to: Ty, a: Operand) -> Result<Operand, AllocError>
    requires { (of_convert to draft.old.next a).next ≤ 65536 }
    ensures { IfOk result (Adds draft.old draft.new (of_convert to draft.old.next a)) }
{
    let low = a.at.low;
    match to {
        Ty::Bool => Ok(a),
        Ty::U8 => {
            Ok(Operand {
                wide: false,
                at: Pair { low, high: low },
            })
        }
        Ty::U16 => {
            let high = set(draft, 0)?.at.low;
            Ok(Operand {
                wide: true,
                at: Pair { low, high },
            })
        }
    }
}
