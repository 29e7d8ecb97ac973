// Lowering an expression.
ghost use Rattle.std.specs.Prelude.{◌≡◌, ◌+◌, ◌≤◌, IfOk, OnErr, Some};
ghost use Rattle.frp_tree.specs.declared.syntax.Ty.{Ty};
ghost use Rattle.frp_tree.specs.Tree.{program_tree_of, tree_of};
ghost use Rattle.efrp_meaning.specs.Bounds.{result_bytes};
ghost use Rattle.efrp_meaning.specs.Types.{type_of};
ghost use Rattle.expr_lower.specs.Lowered.{HasNoLook, Lowers, NamesHaveCells};
ghost use Rattle.expr_lower.specs.Nodes.{Adds, CanLower, made, operand_of_name, some_operand};
ghost use Rattle.expr_lower.specs.Places.{AreCellsOf};

use crate::cells::Cells;
use crate::drafts::{Draft, Operand};
use crate::nodes::{binary, choose, convert, literal, shift, unary};
use crate::places::Place;
use byte_ops::{Op, Pair};
use causality::Checked;
use frp_tree::{Expr, List, Text, Ty};
use std::alloc::{AllocError, Global};

/// The operations of an expression, in order, and the cells of its value behind them.
#[derive(Debug, Drop)]
pub struct Lowered {
    pub ops: List<Op>,
    pub result: Pair,
}

fn operand_of(c: &Checked, places: &[Place], x: &Text) -> Option<Operand>
    ensures { result ≡ operand_of_name (program_tree_of c.now.typed.program) places.now x.now }
{
    let n = c.typed().decl_number(x)?;
    let place = places.get(n as usize)?;
    let at = match place.bound {
        Some(at) => at,
        None => place.state?,
    };
    Some(Operand {
        wide: place.ty == Ty::U16,
        at,
    })
}

fn put(c: &Checked, places: &[Place], draft: &mut Draft, e: &Expr) -> Result<Operand, AllocError>
    requires can { CanLower (program_tree_of c.now.typed.program) places.now (tree_of e.now) }
    requires room { (made (λ x. some_operand (operand_of_name (program_tree_of c.now.typed.program) places.now x)) draft.old.next (tree_of e.now)).next ≤ 65536 }
    ensures { IfOk result (Adds draft.old draft.new (made (λ x. some_operand (operand_of_name (program_tree_of c.now.typed.program) places.now x)) draft.old.next (tree_of e.now))) }
{
    match e {
        Expr::Const(l) => literal(draft, *l),
        Expr::Name(x) => {
            match operand_of(c, places, x) {
                Some(a) => Ok(a),
                None => unreachable!(),
            }
        }
        Expr::Unary(f, a) => {
            let a = put(c, places, draft, a)?;
            unary(draft, *f, a)
        }
        Expr::Binary(f, a, b) => {
            let a = put(c, places, draft, a)?;
            let b = put(c, places, draft, b)?;
            binary(draft, *f, a, b)
        }
        Expr::Shift(side, a, n) => {
            let a = put(c, places, draft, a)?;
            shift(draft, *side, a, *n as u8)
        }
        Expr::If(test, a, b) => {
            let test = put(c, places, draft, test)?;
            let a = put(c, places, draft, a)?;
            let b = put(c, places, draft, b)?;
            choose(draft, test, a, b)
        }
        Expr::Convert(to, a) => {
            let a = put(c, places, draft, a)?;
            convert(draft, *to, a)
        }
        Expr::Look(_, _) => unreachable!(),
    }
}

/// The operations of an expression without look-ups, in which each name has cells: its value is left in the result's cells. An
/// `Err` is out of memory, and changes nothing. The recursion is as deep as the expression.
pub fn lower(alloc: Global, c: &Checked, e: &Expr, cells: &mut Cells) -> Result<Lowered, AllocError>
    requires typed { (t : Ty) × (type_of (program_tree_of c.now.typed.program) (tree_of e.now) ≡ Some t) }
    requires no_look { HasNoLook (tree_of e.now) }
    requires cells { AreCellsOf (program_tree_of c.now.typed.program) cells.old }
    requires named { NamesHaveCells (program_tree_of c.now.typed.program) cells.old (tree_of e.now) }
    requires room { cells.old.next + result_bytes (program_tree_of c.now.typed.program) (tree_of e.now) ≤ 65536 }
    ensures lowers { (t : Ty) → type_of (program_tree_of c.now.typed.program) (tree_of e.now) ≡ Some t → IfOk result (Lowers (program_tree_of c.now.typed.program) cells.old cells.new (tree_of e.now) t) }
    ensures kept { AreCellsOf (program_tree_of c.now.typed.program) cells.new }
    ensures err { OnErr result (cells.new ≡ cells.old) }
{
    let mut draft = Draft {
        ops: List::new(alloc),
        next: cells.next,
    };
    let result = put(c, cells.places.as_slice(), &mut draft, e)?.at;
    cells.next = draft.next;
    Ok(Lowered {
        ops: draft.ops,
        result,
    })
}
