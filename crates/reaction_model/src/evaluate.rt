// The value of an expression.
ghost use Rattle.std.specs.Prelude.{◌≡◌};
ghost use Rattle.frp_tree.specs.Tree.{program_tree_of, tree_of};
ghost use Rattle.reaction_model.specs.Values.{value_of};

use crate::lookups::{entry_in, literal, named};
use crate::values::{binary, number, of_type, shift, unary};
use efrp_types::Typed;
use frp_tree::{Expr, Value};

/// The value of an expression over those that stand at the numbers of definitions. Each part is evaluated once, but for
/// the branch that an `if` does not take. The time is in proportion to its nodes.
pub fn evaluate(typed: &Typed, values: &[Value], e: &Expr) -> Value
    ensures { result ≡ value_of (program_tree_of typed.now.program) values.now (tree_of e.now) }
{
    match e {
        Expr::Const(its_literal) => literal(its_literal),
        Expr::Name(name) => named(typed, values, name),
        Expr::Unary(op, a) => unary(*op, evaluate(typed, values, a)),
        Expr::Binary(op, a, b) => binary(
            *op,
            evaluate(typed, values, a),
            evaluate(typed, values, b),
        ),
        Expr::Shift(side, a, amount) => shift(*side, evaluate(typed, values, a), *amount),
        Expr::If(c, a, b) => {
            if number(evaluate(typed, values, c)) == 1 {
                evaluate(typed, values, a)
            } else {
                evaluate(typed, values, b)
            }
        }
        Expr::Convert(to, a) => of_type(*to, number(evaluate(typed, values, a))),
        Expr::Look(table, index) => {
            entry_in(typed, table, number(evaluate(typed, values, index)))
        }
    }
}
