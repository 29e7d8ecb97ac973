// Operations so far, and the cells that they give out.
ghost use Rattle.std.specs.Prelude.{◌≡◌, ◌+◌, ◌≤◌};
ghost use Rattle.expr_lower.specs.Nodes.{new_pair, operand, size_of};

use crate::places::give_out;
use byte_ops::{Op, Pair};
use frp_tree::List;

// Where a value lies: in two cells where it is wide, and else in one.
#[derive(Clone, Copy, Debug)]
pub(crate) struct Operand {
    pub(crate) wide: bool,
    pub(crate) at: Pair,
}

// Operations in order, and the number of the cell that is given out next.
#[derive(Debug, Drop)]
pub(crate) struct Draft {
    pub(crate) ops: List<Op>,
    pub(crate) next: u32,
}

impl Draft {
    // New cells for a value.
    pub(crate) fn give_out(&mut self, wide: bool) -> Operand
        requires { self.old.next + size_of wide ≤ 65536 }
        ensures ops { self.new.ops ≡ self.old.ops }
        ensures next { self.new.next ≡ self.old.next + size_of wide }
        ensures to { result ≡ operand wide (new_pair wide self.old.next) }
    {
        let at = give_out(&mut self.next, wide);
        Operand { wide, at }
    }
}
