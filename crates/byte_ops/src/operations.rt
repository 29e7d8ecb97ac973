// The operations, and the cells that they name.

use frp_tree::{BinOp, Side};

/// Two cells, by their numbers: that of the low byte and that of the high one. In an operation that isn't wide the low cell
/// alone counts; `high` is then written as `low`.
#[derive(Clone, Copy, Debug, PartialEq, Eq)]
pub struct Pair {
    pub low: u16,
    pub high: u16,
}

/// An operation: what it does, the cells that it writes (`to`), and the cells that it reads. A wide one has operands of 16 bits,
/// the others of 8. `f` is `BitAnd`, `BitOr` or `BitXor` in `Bits`; `Add` or `Sub` in `Sum`; a comparison in `Compare`; `And` or
/// `Or` in `Logic`; `Mul`, `Div` or `Rem` in `Product`. `n` in `Shift` is at most 7, or 15 where it is wide.
#[derive(Clone, Copy, Debug, PartialEq, Eq)]
pub enum Op {
    Set {
        to: u16,
        k: u8,
    },
    Copy {
        to: u16,
        a: u16,
    },
    Com {
        to: u16,
        a: u16,
    },
    Not {
        to: u16,
        a: u16,
    },
    Bits {
        f: BinOp,
        to: u16,
        a: u16,
        b: u16,
    },
    Sum {
        f: BinOp,
        wide: bool,
        to: Pair,
        a: Pair,
        b: Pair,
    },
    Compare {
        f: BinOp,
        wide: bool,
        to: u16,
        a: Pair,
        b: Pair,
    },
    Logic {
        f: BinOp,
        to: u16,
        a: u16,
        b: u16,
    },
    Choose {
        wide: bool,
        to: Pair,
        c: u16,
        a: Pair,
        b: Pair,
    },
    Shift {
        side: Side,
        wide: bool,
        n: u8,
        to: Pair,
        a: Pair,
    },
    Product {
        f: BinOp,
        wide: bool,
        to: Pair,
        a: Pair,
        b: Pair,
    },
}
