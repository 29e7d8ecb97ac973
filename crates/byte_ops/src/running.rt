// Doing an operation.

ghost use Rattle.std.specs.Prelude.{◌++◌, length};
ghost use Rattle.std.specs.List.{AllByRecursion};
ghost use Rattle.byte_ops.specs.Cells.{AreIn, AreNot, Differ, cell_of};
ghost use Rattle.byte_ops.specs.Kinds.{IsOp};
ghost use Rattle.byte_ops.specs.Meaning.{Means, read_by, written_by};

use crate::cells::{put, read, write};
use crate::operations::Op;
use crate::values::{bits, chosen, compared, complement, logic, negated, product, shifted, sum};

/// Does the operation: the cells that it writes receive its value, read as the operands are, and no other cell changes. The
/// operator is of its kind; the cells that it names are below the number of cells; those that it writes are none of those that
/// it reads, and differ. Where an operand that is a bool holds neither 0 nor 1, what is written is not promised. Takes no memory.
pub fn run(op: &Op, cells: &mut [u8])
    requires kind { IsOp op.now }
    requires written_in { AreIn (length cells.old) (written_by op.now) }
    requires read_in { AreIn (length cells.old) (read_by op.now) }
    requires apart { AllByRecursion (λ cell. AreNot cell (read_by op.now)) (written_by op.now) }
    requires differ { Differ (written_by op.now) }
    ensures { Means op.now (cell_of cells.old) (cell_of cells.new) }
{
    match *op {
        Op::Set { to, k } => put(cells, to, k),
        Op::Copy { to, a } => {
            let byte = cells[a as usize];
            put(cells, to, byte);
        }
        Op::Com { to, a } => {
            let byte = complement(cells[a as usize]);
            put(cells, to, byte);
        }
        Op::Not { to, a } => {
            let byte = negated(cells[a as usize]);
            put(cells, to, byte);
        }
        Op::Bits { f, to, a, b } => {
            let byte = bits(f, cells[a as usize], cells[b as usize]);
            put(cells, to, byte);
        }
        Op::Sum { f, wide, to, a, b } => {
            let value = sum(f, wide, read(cells, wide, a), read(cells, wide, b));
            write(cells, wide, to, value);
        }
        Op::Compare { f, wide, to, a, b } => {
            let byte = compared(f, read(cells, wide, a), read(cells, wide, b));
            put(cells, to, byte);
        }
        Op::Logic { f, to, a, b } => {
            let byte = logic(f, cells[a as usize], cells[b as usize]);
            put(cells, to, byte);
        }
        Op::Choose { wide, to, c, a, b } => {
            let value = chosen(
                cells[c as usize],
                read(cells, wide, a),
                read(cells, wide, b),
            );
            write(cells, wide, to, value);
        }
        Op::Shift {
            side,
            wide,
            n,
            to,
            a,
        } => {
            let value = shifted(side, wide, n, read(cells, wide, a));
            write(cells, wide, to, value);
        }
        Op::Product { f, wide, to, a, b } => {
            let value = product(f, wide, read(cells, wide, a), read(cells, wide, b));
            write(cells, wide, to, value);
        }
    }
}
