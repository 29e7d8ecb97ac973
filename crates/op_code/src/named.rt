// The cells that the names of an operation stand for, and their addresses.

ghost use Rattle.std.specs.Prelude.{◌≡◌};
ghost use Rattle.op_code.specs.Named.{high_of as high_cell, named_by as named_cells, pairs as pair_cells, singles as single_cells};

use byte_ops::{Op, Pair};

// The cells of named bytes, by their numbers.
#[derive(Clone, Copy, Debug, PartialEq, Eq)]
pub(crate) struct Named {
    pub(crate) to: u16,
    pub(crate) to_high: u16,
    pub(crate) a: u16,
    pub(crate) a_high: u16,
    pub(crate) b: u16,
    pub(crate) b_high: u16,
    pub(crate) c: u16,
}

// The cell of the upper byte of a pair, where it is wide; else its one cell.
fn high_of(wide: bool, pair: Pair) -> u16
    ensures { result ≡ high_cell wide pair }
{
    if wide { pair.high } else { pair.low }
}

fn singles(to: u16, a: u16, b: u16) -> Named
    ensures { result ≡ single_cells to a b }
{
    Named {
        to,
        to_high: to,
        a,
        a_high: a,
        b,
        b_high: b,
        c: to,
    }
}

fn pairs(wide: bool, to: Pair, a: Pair, b: Pair, c: u16) -> Named
    ensures { result ≡ pair_cells wide to a b c }
{
    Named {
        to: to.low,
        to_high: high_of(wide, to),
        a: a.low,
        a_high: high_of(wide, a),
        b: b.low,
        b_high: high_of(wide, b),
        c,
    }
}

// The cells that the names of an operation stand for.
pub(crate) fn named_by(op: &Op) -> Named
    ensures { result ≡ named_cells op.now }
{
    match *op {
        Op::Set { to, .. } => singles(to, to, to),
        Op::Copy { to, a } | Op::Com { to, a } | Op::Not { to, a } => singles(to, a, a),
        Op::Bits { to, a, b, .. } | Op::Logic { to, a, b, .. } => singles(to, a, b),
        Op::Sum { wide, to, a, b, .. } | Op::Product { wide, to, a, b, .. } => {
            pairs(wide, to, a, b, to.low)
        }
        Op::Compare { wide, to, a, b, .. } => pairs(wide, Pair { low: to, high: to }, a, b, to),
        Op::Choose { wide, to, c, a, b } => pairs(wide, to, a, b, c),
        Op::Shift { wide, to, a, .. } => pairs(wide, to, a, a, to.low),
    }
}
