// Operations so far, the cells that definitions have, and what is copied to states.
ghost use Rattle.std.specs.Prelude.{◌≡◌, ◌++◌, ◌<◌, ◌≤◌, length, slice_get, IfOk, OnOk, Some};
ghost use Rattle.frp_tree.specs.declared.syntax.Ty.{Ty as AnyTy};
ghost use Rattle.frp_tree.specs.Tree.{program_tree_of, tree_of};
ghost use Rattle.efrp_meaning.specs.Types.{type_of};
ghost use Rattle.expr_lower.specs.declared.places.Place.{Place as AnyPlace};
ghost use Rattle.expr_lower.specs.Places.{is_wide};
ghost use Rattle.event_ops.specs.Drafts.{Adds, CanAdd, IsNew, Lasting, Moves, MovesPair, moved, moved_pair, state_copies};

use crate::results::Copied;
use byte_ops::{Op, Pair};
use causality::Checked;
use expr_lower::{Cells, lower};
use frp_tree::{Expr, List};
use std::alloc::{AllocError, Global};

// Operations in order, the cells of definitions, what is copied to states' cells, and how many cells are those of states.
#[derive(Debug, Drop)]
pub(crate) struct Draft {
    pub(crate) ops: List<Op>,
    pub(crate) cells: Cells,
    pub(crate) copies: List<Copied>,
    states: u32,
}

impl Draft {
    // Nothing is done and nothing is copied; the cells are those of the program's states.
    pub(crate) fn new(alloc: Global, c: &Checked) -> Result<Draft, AllocError>
        ensures { IfOk result (IsNew (program_tree_of c.now.typed.program)) }
    {
        let cells = Cells::of_states(alloc, c)?;
        let states = cells.count();
        Ok(Draft {
            ops: List::new(alloc),
            cells,
            copies: List::new(alloc),
            states,
        })
    }

    // Adds the operations of an expression, and answers the cells of its value.
    pub(crate) fn add(&mut self, alloc: Global, c: &Checked, e: &Expr) -> Result<Pair, AllocError>
        requires { CanAdd (program_tree_of c.now.typed.program) self.old (tree_of e.now) }
        ensures { (t : AnyTy) → type_of (program_tree_of c.now.typed.program) (tree_of e.now) ≡ Some t → IfOk result (Adds (program_tree_of c.now.typed.program) self.old self.new (tree_of e.now) t) }
    {
        let lowered = lower(alloc, c, e, &mut self.cells)?;
        self.ops.extend_from_slice(lowered.ops.as_slice())?;
        Ok(lowered.result)
    }

    // A cell that holds the same until the commit: a new one in place of a state's.
    fn lasting_cell(&mut self, cell: u16) -> Result<u16, AllocError>
        requires { (moved self.old.states self.old.cells.next cell).next ≤ 65536 }
        ensures { IfOk result (Moves self.old self.new (moved self.old.states self.old.cells.next cell)) }
    {
        if u32::from(cell) >= self.states {
            return Ok(cell);
        }
        let to = self.cells.give_out(false).low;
        self.ops.push(Op::Copy { to, a: cell })?;
        Ok(to)
    }

    // Cells that hold the same until the commit, none of which is a state's.
    fn lasting(&mut self, wide: bool, pair: Pair) -> Result<Pair, AllocError>
        requires { (moved_pair wide self.old.states self.old.cells.next pair).next ≤ 65536 }
        ensures { IfOk result (MovesPair self.old self.new (moved_pair wide self.old.states self.old.cells.next pair)) }
    {
        let low = self.lasting_cell(pair.low)?;
        if wide {
            let high = self.lasting_cell(pair.high)?;
            Ok(Pair { low, high })
        } else {
            Ok(Pair { low, high: low })
        }
    }

    // Adds the operations of an expression of this width, and answers cells that hold its value until the commit.
    pub(crate) fn add_lasting(
        &mut self,
        alloc: Global,
        c: &Checked,
        e: &Expr,
        wide: bool,
    ) -> Result<Pair, AllocError>
        requires can { CanAdd (program_tree_of c.now.typed.program) self.old (tree_of e.now) }
        requires wide { (t : AnyTy) → type_of (program_tree_of c.now.typed.program) (tree_of e.now) ≡ Some t → wide ≡ is_wide t }
        ensures { (t : AnyTy) → type_of (program_tree_of c.now.typed.program) (tree_of e.now) ≡ Some t → IfOk result (Lasting (program_tree_of c.now.typed.program) self.old self.new (tree_of e.now) t) }
    {
        let pair = self.add(alloc, c, e)?;
        self.lasting(wide, pair)
    }

    // These cells are copied to those of the definition's state when the event commits.
    pub(crate) fn copy_to(&mut self, decl: u8, wide: bool, from: Pair) -> Result<(), AllocError>
        requires { decl < length self.old.cells.places.items }
        ensures copies { OnOk result ((place : AnyPlace) → slice_get self.old.cells.places.items decl ≡ Some place → self.new.copies ≡ self.old.copies ++ state_copies wide from place.state) }
        ensures ops { self.new.ops ≡ self.old.ops }
        ensures cells { self.new.cells ≡ self.old.cells }
        ensures states { self.new.states ≡ self.old.states }
    {
        if let Some(to) = self.cells.state(decl) {
            self.copies.push(Copied {
                from: from.low,
                to: to.low,
            })?;
            if wide {
                self.copies.push(Copied {
                    from: from.high,
                    to: to.high,
                })?;
            }
        }
        Ok(())
    }
}
