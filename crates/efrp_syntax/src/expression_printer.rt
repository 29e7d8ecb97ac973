// The text of an expression.
ghost use Rattle.std.specs.Prelude.{◌≡◌, [], ◌∷◌, ◌++◌, OnOk, IfOk};
ghost use Rattle.frp_tree.specs.declared.tokens.Token.TheVariants.{Mark};
ghost use Rattle.frp_tree.specs.Tree.{If, tree_of};
ghost use Rattle.frp_tree.specs.Printed.{own, needs, left_level, bare, shown, spaced};
ghost use Rattle.efrp_syntax.specs.PrintedParts.{IsLastPart};

use crate::backward::Backward;
use frp_tree::{Expr, Level, marks};
use std::alloc::AllocError;

/// The tightest level that has the expression with no brackets round it.
fn own(e: &Expr) -> Level
    ensures { result ≡ own (tree_of e.now) }
{
    match e {
        Expr::Binary(op, _, _) => op.level(),
        Expr::Shift(_, _, _) => Level::Shift,
        Expr::If(_, _, _) => Level::Whole,
        _ => Level::Operand,
    }
}

/// Whether the expression has brackets where the level stands.
fn needs(level: Level, e: &Expr) -> bool
    ensures { result ≡ needs level (tree_of e.now) }
{
    own(e).height() < level.height()
}

/// The level of the left operand of an operator of this level.
fn left_level(level: Level) -> Level
    ensures { result ≡ left_level level }
{
    if level.repeats() {
        level
    } else {
        level.tighter()
    }
}

/// Writes an expression between two marks.
#[cycle(expressions)]
fn enclosed(out: &mut Backward, opening: u8, e: &Expr, closing: u8) -> Result<(), AllocError>
    ensures { OnOk result (out.new ≡ spaced (Mark opening ∷ (bare (tree_of e.now) ++ Mark closing ∷ [])) ++ out.old) }
{
    out.mark(closing)?;
    bare(out, e)?;
    out.mark(opening)
}

/// Writes an expression where the level stands.
#[cycle(expressions)]
fn shown(out: &mut Backward, level: Level, e: &Expr) -> Result<(), AllocError>
    ensures { OnOk result (out.new ≡ spaced (shown level (tree_of e.now)) ++ out.old) }
{
    if needs(level, e) {
        enclosed(
            out,
            marks::OPENING_PARENTHESIS,
            e,
            marks::CLOSING_PARENTHESIS,
        )
    } else {
        bare(out, e)
    }
}

/// Writes an expression with no brackets round it. Its left operands are gone through in a loop, since a
/// row of operators may be long.
#[cycle(expressions)]
pub fn bare(out: &mut Backward, e: &Expr) -> Result<(), AllocError>
    ensures { OnOk result (out.new ≡ spaced (bare (tree_of e.now)) ++ out.old) }
{
    let mut rest = e;
    'row: while let Some((level, left)) = last_part(out, rest)? {
        if needs(level, left) {
            return shown(out, level, left);
        }
        rest = left;
    }
    Ok(())
}

/// Writes a choice.
#[cycle(expressions)]
fn choice(out: &mut Backward, c: &Expr, a: &Expr, b: &Expr) -> Result<(), AllocError>
    ensures { OnOk result (out.new ≡ spaced (bare (If (tree_of c.now) (tree_of a.now) (tree_of b.now))) ++ out.old) }
{
    bare(out, b)?;
    out.word("else")?;
    bare(out, a)?;
    out.word("then")?;
    bare(out, c)?;
    out.word("if")
}

/// Writes an expression that has no left operand; or what stands behind the left operand of one that has,
/// and gives that operand with its level.
#[cycle(expressions)]
fn last_part<'a>(out: &mut Backward, e: &'a Expr) -> Result<Option<(Level, &'a Expr)>, AllocError>
    ensures { IfOk result (λ left. IsLastPart (tree_of e.now) out.old out.new left) }
{
    match e {
        Expr::Binary(op, a, b) => {
            let level = op.level();
            shown(out, level.tighter(), b)?;
            out.mark(op.mark())?;
            return Ok(Some((left_level(level), a)));
        }
        Expr::Shift(side, a, n) => {
            out.number(*n)?;
            out.mark(side.mark())?;
            return Ok(Some((Level::Shift, a)));
        }
        Expr::Const(literal) => out.literal(*literal)?,
        Expr::Name(name) => out.word(name.as_str())?,
        Expr::Unary(op, a) => {
            shown(out, Level::Operand, a)?;
            out.mark(op.mark())?;
        }
        Expr::If(c, a, b) => choice(out, c, a, b)?,
        Expr::Convert(to, a) => {
            enclosed(
                out,
                marks::OPENING_PARENTHESIS,
                a,
                marks::CLOSING_PARENTHESIS,
            )?;
            out.word(to.name())?;
        }
        Expr::Look(table, index) => {
            enclosed(out, marks::OPENING_BRACKET, index, marks::CLOSING_BRACKET)?;
            out.word(table.as_str())?;
        }
    }
    Ok(None)
}
