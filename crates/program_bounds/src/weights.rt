// The weights of expressions, in words or steps, and the bytes of the results of their nodes.
ghost use Rattle.std.specs.Prelude.{◌≡◌, ◌<◌, ◌≤◌, ◌^◌, Some};
ghost use Rattle.frp_tree.specs.Tree.{program_tree_of, tree_of};
ghost use Rattle.efrp_meaning.specs.Bounds.{binary_weight, by_width, result_bytes, type_bytes, unary_weight, weight};
ghost use Rattle.program_bounds.specs.Weighing.{AreTyped};

use efrp_types::Typed;
use frp_tree::{BinOp, Expr, Ty, UnOp};

// One number for a type of one byte, and another for that of two.
fn by_width(ty: Ty, narrow: u32, wide: u32) -> u32
    ensures { result ≡ by_width (Some ty) narrow wide }
{
    match ty {
        Ty::Bool | Ty::U8 => narrow,
        Ty::U16 => wide,
    }
}

/// The bytes of a value of this type. Takes no memory.
pub(crate) fn type_bytes(ty: Ty) -> u32
    ensures bytes { result ≡ type_bytes ty }
    ensures few { result ≤ 2 }
{
    match ty {
        Ty::Bool | Ty::U8 => 1,
        Ty::U16 => 2,
    }
}

fn unary_weight(f: UnOp, operand: Ty) -> u32
    ensures { result ≡ unary_weight f (Some operand) }
{
    match f {
        UnOp::Com => by_width(operand, 8, 16),
        UnOp::Not => 16,
    }
}

fn binary_weight(f: BinOp, operand: Ty) -> u32
    ensures { result ≡ binary_weight f (Some operand) }
{
    match f {
        BinOp::Or | BinOp::And => 16,
        BinOp::Eq | BinOp::Ne | BinOp::Lt | BinOp::Le | BinOp::Gt | BinOp::Ge => {
            by_width(operand, 24, 64)
        }
        BinOp::BitOr | BinOp::BitXor | BinOp::BitAnd => by_width(operand, 12, 24),
        BinOp::Add | BinOp::Sub => by_width(operand, 16, 48),
        BinOp::Mul => by_width(operand, 64, 320),
        BinOp::Div | BinOp::Rem => by_width(operand, 192, 800),
    }
}

/// The weight of an expression: the sum of those of its nodes. Takes no memory. The recursion is as deep as the expression.
pub(crate) fn weight(typed: &Typed, e: &Expr) -> u32
    requires typed { AreTyped (program_tree_of typed.now.program) (tree_of e.now) }
    requires fits { weight (program_tree_of typed.now.program) (tree_of e.now) < 2 ^ 32 }
    ensures { result ≡ weight (program_tree_of typed.now.program) (tree_of e.now) }
{
    match e {
        Expr::Const(_) => by_width(typed.ty(e), 4, 8),
        Expr::Name(_) => by_width(typed.ty(e), 6, 12),
        Expr::Unary(f, a) => unary_weight(*f, typed.ty(a)) + weight(typed, a),
        Expr::Binary(f, a, b) => {
            binary_weight(*f, typed.ty(a)) + (weight(typed, a) + weight(typed, b))
        }
        Expr::Shift(_, a, _) => by_width(typed.ty(a), 32, 80) + weight(typed, a),
        Expr::If(c, a, b) => {
            by_width(typed.ty(a), 24, 40)
                + (weight(typed, c) + (weight(typed, a) + weight(typed, b)))
        }
        Expr::Convert(_, a) => 12 + weight(typed, a),
        Expr::Look(_, index) => by_width(typed.ty(e), 40, 80) + weight(typed, index),
    }
}

/// The bytes of the results of an expression's nodes. Takes no memory. The recursion is as deep as the expression.
pub(crate) fn result_bytes(typed: &Typed, e: &Expr) -> u32
    requires typed { AreTyped (program_tree_of typed.now.program) (tree_of e.now) }
    requires fits { result_bytes (program_tree_of typed.now.program) (tree_of e.now) < 2 ^ 32 }
    ensures { result ≡ result_bytes (program_tree_of typed.now.program) (tree_of e.now) }
{
    let own = by_width(typed.ty(e), 1, 2);
    match e {
        Expr::Const(_) | Expr::Name(_) => own,
        Expr::Unary(_, a) | Expr::Shift(_, a, _) | Expr::Convert(_, a) | Expr::Look(_, a) => {
            own + result_bytes(typed, a)
        }
        Expr::Binary(_, a, b) => own + (result_bytes(typed, a) + result_bytes(typed, b)),
        Expr::If(c, a, b) => {
            own + (result_bytes(typed, c) + (result_bytes(typed, a) + result_bytes(typed, b)))
        }
    }
}
