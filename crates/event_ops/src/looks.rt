// Whether a program looks anything up in a table.
ghost use Rattle.std.specs.Prelude.{◌≡◌, ◌↔◌, IsTrue};
ghost use Rattle.std.specs.List.{list_all};
ghost use Rattle.frp_tree.specs.declared.syntax.Clause.{Clause as AnyClause};
ghost use Rattle.frp_tree.specs.declared.syntax.Decl.{Decl as AnyDecl};
ghost use Rattle.frp_tree.specs.declared.syntax.Output.{Output as AnyOutput};
ghost use Rattle.frp_tree.specs.Tree.{behaviour_of, program_tree_of, tree_of};
ghost use Rattle.event_ops.specs.Looks.{looks_nowhere, no_look_in};
ghost use Rattle.event_ops.specs.Works.{HasNoLooks};

use frp_tree::{Behaviour, Clause, Decl, Expr, Output, Program};

fn has_no_look(e: &Expr) -> bool
    ensures { result ≡ looks_nowhere (tree_of e.now) }
{
    match e {
        Expr::Const(_) | Expr::Name(_) => true,
        Expr::Unary(_, a) | Expr::Shift(_, a, _) | Expr::Convert(_, a) => has_no_look(a),
        Expr::Binary(_, a, b) => has_no_look(a) && has_no_look(b),
        Expr::If(c, a, b) => has_no_look(c) && (has_no_look(a) && has_no_look(b)),
        Expr::Look(_, _) => false,
    }
}

fn clauses_have_no_look(clauses: &[Clause]) -> bool
    ensures { result ≡ list_all (λ (c : AnyClause). looks_nowhere (tree_of c.expr)) clauses.now }
{
    clauses.iter().all(|c| has_no_look(&c.expr))
}

fn is_without_look(behaviour: &Behaviour) -> bool
    ensures { result ≡ no_look_in (behaviour_of behaviour.now) }
{
    match behaviour {
        Behaviour::Plain(e) => has_no_look(e),
        Behaviour::Input(_) | Behaviour::Table(_) => true,
        Behaviour::Reactive { init: _, clauses } => clauses_have_no_look(clauses.as_slice()),
    }
}

fn decls_have_no_look(decls: &[Decl]) -> bool
    ensures { result ≡ list_all (λ (d : AnyDecl). no_look_in (behaviour_of d.behaviour)) decls.now }
{
    decls.iter().all(|d| is_without_look(&d.behaviour))
}

fn outputs_have_no_look(outputs: &[Output]) -> bool
    ensures { result ≡ list_all (λ (o : AnyOutput). looks_nowhere (tree_of o.expr)) outputs.now }
{
    outputs.iter().all(|o| has_no_look(&o.expr))
}

/// Whether no expression of the program looks anything up in a table. Takes no memory. The recursion is as deep as an
/// expression.
pub fn has_no_looks(program: &Program) -> bool
    ensures { IsTrue result ↔ HasNoLooks (program_tree_of program.now) }
{
    let decls = decls_have_no_look(program.decls.as_slice());
    let outputs = outputs_have_no_look(program.outputs.as_slice());
    decls && outputs
}
