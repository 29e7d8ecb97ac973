// Values by number and type, and operators on them.
ghost use Rattle.std.specs.Prelude.{◌≡◌, ◌<◌, ◌≤◌, min};
ghost use Rattle.efrp_meaning.specs.Values.{binary_value, modulus, number_of, shift_value};
ghost use Rattle.reaction_model.specs.Values.{binary_on, binary_result, shift_on, type_of_value, unary_on, value_in};

use frp_tree::{BinOp, Side, Ty, UnOp, Value};

/// The type of a value.
pub fn type_of(value: Value) -> Ty
    ensures { result ≡ type_of_value value }
{
    match value {
        Value::Bool(_) => Ty::Bool,
        Value::U8(_) => Ty::U8,
        Value::U16(_) => Ty::U16,
    }
}

/// How many values a type has.
fn modulus(ty: Ty) -> u32
    ensures { result ≡ modulus ty }
{
    match ty {
        Ty::Bool => 2,
        Ty::U8 => 256,
        Ty::U16 => 65536,
    }
}

/// The number of a value.
pub fn number(value: Value) -> u32
    ensures is { result ≡ number_of value }
    ensures small { result < 65536 }
{
    match value {
        Value::Bool(b) => u32::from(b),
        Value::U8(n) => u32::from(n),
        Value::U16(n) => u32::from(n),
    }
}

/// The value of this type with this number. Of a number past the type's range `u8` and `u16` have the low bits, and
/// `bool` is false.
pub fn of_type(ty: Ty, n: u32) -> Value
    ensures { result ≡ value_in ty n }
{
    match ty {
        Ty::Bool => Value::Bool(n == 1),
        Ty::U8 => Value::U8((n % 256) as u8),
        Ty::U16 => Value::U16((n % 65536) as u16),
    }
}

/// `~a` or `!a`.
pub fn unary(op: UnOp, a: Value) -> Value
    ensures { result ≡ unary_on op a }
{
    let ty = type_of(a);
    match op {
        UnOp::Com => of_type(ty, (modulus(ty) - 1).saturating_sub(number(a))),
        UnOp::Not => of_type(Ty::Bool, u32::from(number(a) != 1)),
    }
}

/// The type of `a op b`, by that of `a`.
fn result_type(op: BinOp, operand: Ty) -> Ty
    ensures { result ≡ binary_result op operand }
{
    match op {
        BinOp::BitOr
        | BinOp::BitXor
        | BinOp::BitAnd
        | BinOp::Add
        | BinOp::Sub
        | BinOp::Mul
        | BinOp::Div
        | BinOp::Rem => operand,
        _ => Ty::Bool,
    }
}

/// The number of `a op b`, where the type of `a` has `m` values.
fn binary_number(op: BinOp, m: u32, a: u32, b: u32) -> u32
    requires some { 0 < m }
    requires few { m ≤ 65536 }
    requires left { a < 65536 }
    requires right { b < 65536 }
    ensures { result ≡ binary_value op m a b }
{
    match op {
        BinOp::Or => u32::from(a == 1 || b == 1),
        BinOp::And => u32::from(a == 1 && b == 1),
        BinOp::Eq => u32::from(a == b),
        BinOp::Ne => u32::from(a != b),
        BinOp::Lt => u32::from(a < b),
        BinOp::Le => u32::from(a <= b),
        BinOp::Gt => u32::from(a > b),
        BinOp::Ge => u32::from(a >= b),
        BinOp::BitOr => a | b,
        BinOp::BitXor => a ^ b,
        BinOp::BitAnd => a & b,
        BinOp::Add => (a + b) % m,
        BinOp::Sub => (a + m).saturating_sub(b) % m,
        BinOp::Mul => (a * b) % m,
        BinOp::Div => a.checked_div(b).unwrap_or(m - 1),
        BinOp::Rem => a.checked_rem(b).unwrap_or(a),
    }
}

/// `a op b`. The left operand says which type both have.
pub fn binary(op: BinOp, a: Value, b: Value) -> Value
    ensures { result ≡ binary_on op a b }
{
    let ty = type_of(a);
    of_type(
        result_type(op, ty),
        binary_number(op, modulus(ty), number(a), number(b)),
    )
}

/// `a` shifted by this amount of bits, and by 15 at most.
pub fn shift(side: Side, a: Value, amount: u16) -> Value
    ensures { result ≡ shift_on side a amount }
{
    let ty = type_of(a);
    let amount = u32::from(amount.min(15));
    match side {
        Side::Left => of_type(ty, (number(a) << amount) % modulus(ty)),
        Side::Right => of_type(ty, number(a) >> amount),
    }
}
