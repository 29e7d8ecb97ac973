// The value of each kind of operation, of operands of 8 bits or of 16.

ghost use Rattle.std.specs.Prelude.{◌≡◌, ℕ, ◌<◌, ◌≤◌, IsTrue};
ghost use Rattle.efrp_meaning.specs.Values.{binary_value, if_value, shift_value, truth_number, unary_value};
ghost use Rattle.byte_ops.specs.Cells.{modulus_of};
ghost use Rattle.byte_ops.specs.Kinds.{is_bits, is_compare, is_logic, is_product, is_sum, most_shifted};
ghost use Rattle.frp_tree.specs.declared.syntax.UnOp.TheVariants.{Com, Not};
ghost use Rattle.frp_tree.specs.declared.syntax.BinOp.TheVariants.{Mul, Div};

use frp_tree::{BinOp, Side};

// Each bit turned.
pub(crate) fn complement(a: u8) -> u8
    ensures { result ≡ unary_value Com 256 a }
{
    255 - a
}

// 1 where a is no 1, and else 0.
pub(crate) fn negated(a: u8) -> u8
    ensures { result ≡ unary_value Not 2 a }
{
    if a == 1 { 0 } else { 1 }
}

// `&`, `|` or `^`.
pub(crate) fn bits(f: BinOp, a: u8, b: u8) -> u8
    requires { IsTrue (is_bits f) }
    ensures { result ≡ binary_value f 256 a b }
{
    match f {
        BinOp::BitOr => a | b,
        BinOp::BitXor => a ^ b,
        _ => a & b,
    }
}

// `+` or `-`.
pub(crate) fn sum(f: BinOp, wide: bool, a: u16, b: u16) -> u16
    requires kind { IsTrue (is_sum f) }
    requires a_fits { a < modulus_of wide }
    requires b_fits { b < modulus_of wide }
    ensures fits { result < modulus_of wide }
    ensures value { result ≡ binary_value f (modulus_of wide) a b }
{
    match (f, wide) {
        (BinOp::Add, true) => a.wrapping_add(b),
        (BinOp::Add, false) => u16::from((a as u8).wrapping_add(b as u8)),
        (_, true) => a.wrapping_sub(b),
        (_, false) => u16::from((a as u8).wrapping_sub(b as u8)),
    }
}

// Whether the comparison holds.
fn holds(f: BinOp, a: u16, b: u16) -> bool
    requires { IsTrue (is_compare f) }
    ensures { (m : ℕ) → truth_number result ≡ binary_value f m a b }
{
    match f {
        BinOp::Eq => a == b,
        BinOp::Ne => a != b,
        BinOp::Lt => a < b,
        BinOp::Le => a <= b,
        BinOp::Gt => b < a,
        _ => b <= a,
    }
}

// A comparison: 1 where it holds, and else 0.
pub(crate) fn compared(f: BinOp, a: u16, b: u16) -> u8
    requires { IsTrue (is_compare f) }
    ensures { (m : ℕ) → result ≡ binary_value f m a b }
{
    u8::from(holds(f, a, b))
}

// `&&` or `||` of two bools.
pub(crate) fn logic(f: BinOp, a: u8, b: u8) -> u8
    requires { IsTrue (is_logic f) }
    ensures { result ≡ binary_value f 2 a b }
{
    let both = if f == BinOp::Or {
        a == 1 || b == 1
    } else {
        a == 1 && b == 1
    };
    u8::from(both)
}

// The first number where c is 1, and else the second.
pub(crate) fn chosen(c: u8, a: u16, b: u16) -> u16
    ensures { result ≡ if_value c a b }
{
    if c == 1 { a } else { b }
}

// A shift by n bits; zeros come in.
pub(crate) fn shifted(side: Side, wide: bool, n: u8, a: u16) -> u16
    requires amount { n ≤ most_shifted wide }
    requires a_fits { a < modulus_of wide }
    ensures fits { result < modulus_of wide }
    ensures value { result ≡ shift_value side n (modulus_of wide) a }
{
    match (side, wide) {
        (Side::Left, true) => a << n,
        (Side::Left, false) => u16::from((a as u8) << n),
        (Side::Right, _) => a >> n,
    }
}

// `*`
fn multiplied(wide: bool, a: u16, b: u16) -> u16
    requires a_fits { a < modulus_of wide }
    requires b_fits { b < modulus_of wide }
    ensures fits { result < modulus_of wide }
    ensures value { result ≡ binary_value Mul (modulus_of wide) a b }
{
    if wide {
        a.wrapping_mul(b)
    } else {
        u16::from((a as u8).wrapping_mul(b as u8))
    }
}

// `/`
fn divided(wide: bool, a: u16, b: u16) -> u16
    requires { a < modulus_of wide }
    ensures fits { result < modulus_of wide }
    ensures value { result ≡ binary_value Div (modulus_of wide) a b }
{
    if b != 0 {
        a / b
    } else if wide {
        65535
    } else {
        255
    }
}

// `*`, `/` or `%`. By 0, `/` gives the greatest value and `%` its left operand.
pub(crate) fn product(f: BinOp, wide: bool, a: u16, b: u16) -> u16
    requires kind { IsTrue (is_product f) }
    requires a_fits { a < modulus_of wide }
    requires b_fits { b < modulus_of wide }
    ensures fits { result < modulus_of wide }
    ensures value { result ≡ binary_value f (modulus_of wide) a b }
{
    match f {
        BinOp::Mul => multiplied(wide, a, b),
        BinOp::Div => divided(wide, a, b),
        _ => { if b == 0 { a } else { a % b } }
    }
}
