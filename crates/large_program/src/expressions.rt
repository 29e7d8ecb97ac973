// Names, literals and expressions of a large program.
ghost use Rattle.std.specs.Prelude.{◌≡◌, ◌<◌, IfOk};
ghost use Rattle.frp_tree.specs.Tree.{Binary, Name, If, tree_of};
ghost use Rattle.large_program.specs.LargePrograms.{definition_name, event_name, expression, literal_for, partner, type_of};

use frp_tree::{BinOp, Expr, Lit, Text, Ty};
use std::alloc::{AllocError, Global};

pub(crate) fn event_name(alloc: Global, i: u32) -> Result<Text, AllocError>
    ensures { IfOk result (λ name. name ≡ event_name i) }
{
    let name = format!(in alloc; "E{i}")?;
    Text::new(alloc, name.as_str())
}

pub(crate) fn definition_name(alloc: Global, i: u32) -> Result<Text, AllocError>
    ensures { IfOk result (λ name. name ≡ definition_name i) }
{
    let name = format!(in alloc; "v{i}")?;
    Text::new(alloc, name.as_str())
}

/// The type of definition i.
pub(crate) fn type_of(i: u32) -> Ty
    ensures { result ≡ type_of i }
{
    if i % 2 == 0 { Ty::U8 } else { Ty::U16 }
}

/// A literal of the type of definition i.
pub(crate) fn literal_for(i: u32, n: u16) -> Lit
    ensures { result ≡ literal_for i n }
{
    if i % 2 == 0 {
        Lit::Plain(n)
    } else {
        Lit::Wide(n)
    }
}

fn partner(i: u32) -> u32
    ensures { result ≡ partner i }
{
    if i >= 2 { i - 2 } else { i }
}

/// The value of definition i.
pub(crate) fn value(alloc: Global, i: u32) -> Result<Expr, AllocError>
    ensures { IfOk result (λ e. tree_of e ≡ Name (definition_name i)) }
{
    Ok(Expr::Name(definition_name(alloc, i)?))
}

fn binary(alloc: Global, op: BinOp, left: Expr, right: Expr) -> Result<Expr, AllocError>
    ensures { IfOk result (λ e. tree_of e ≡ Binary op (tree_of left) (tree_of right)) }
{
    let left = Box::new(alloc, left)?;
    let right = Box::new(alloc, right)?;
    Ok(Expr::Binary(op, left, right))
}

fn choice(alloc: Global, condition: Expr, yes: Expr, no: Expr) -> Result<Expr, AllocError>
    ensures { IfOk result (λ e. tree_of e ≡ If (tree_of condition) (tree_of yes) (tree_of no)) }
{
    let condition = Box::new(alloc, condition)?;
    let yes = Box::new(alloc, yes)?;
    let no = Box::new(alloc, no)?;
    Ok(Expr::If(condition, yes, no))
}

/// What definition i becomes, by one of the four forms, 0 to 3, and a number. An `Err` is out of memory.
pub(crate) fn expression(alloc: Global, i: u32, form: u32, k: u16) -> Result<Expr, AllocError>
    requires { form < 4 }
    ensures { IfOk result (λ e. tree_of e ≡ expression i form k) }
{
    let own = value(alloc, i)?;
    let number = Expr::Const(literal_for(i, k));
    match form {
        0 => binary(alloc, BinOp::Add, own, number),
        1 => binary(alloc, BinOp::BitXor, own, value(alloc, partner(i))?),
        2 => binary(alloc, BinOp::Sub, own, number),
        _ => {
            let condition = binary(alloc, BinOp::Lt, own, number)?;
            let other = Expr::Const(literal_for(i, k));
            choice(alloc, condition, value(alloc, partner(i))?, other)
        }
    }
}
