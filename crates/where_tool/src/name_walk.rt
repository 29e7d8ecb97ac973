// The walk of the check of names, up to the first part that has a fault.
ghost use Rattle.std.specs.Prelude.{[], map};
ghost use Rattle.std.specs.List.{AllByRecursion};
ghost use Rattle.frp_tree.specs.declared.syntax.Clause.{Clause as AnyClause};
ghost use Rattle.frp_tree.specs.declared.syntax.Decl.{Decl as AnyDecl};
ghost use Rattle.frp_tree.specs.declared.syntax.Output.{Output as AnyOutput};
ghost use Rattle.frp_tree.specs.Tree.{behaviour_of, clause_of, decl_of, output_of, program_tree_of, tree_of};
ghost use Rattle.efrp_types.specs.Laws.{IsWellFormed};
ghost use Rattle.where_tool.specs.declared.parts.Host.TheVariants as host;
ghost use Rattle.where_tool.specs.Visits.{behaviour_visits, clause_visits, decl_visits, each_visited, event_visits, expression_visits, item_visits, name_visits, output_visits, setup_visits, use_visits};
ghost use Rattle.where_tool.specs.Walks.{AreFew, Goes, HaveFew, IsBehind, Walks};

use crate::meetings::met;
use crate::parts::{Halted, Host, Part};
use efrp_types::names;
use frp_tree::{Behaviour, Clause, Decl, Event, Expr, Output, Program, Setup, Text};
use std::alloc::Global;

fn events(alloc: Global, events: &[Event]) -> Result<(), Halted>
    ensures { Goes (each_visited event_visits 0 [] events.now) result }
{
    for i in 0..events.len() {
        met(
            Part::Event(i),
            names::event(alloc, &events[..i], &events[i]),
        )?;
    }
    Ok(())
}

fn setups(alloc: Global, setups: &[Setup]) -> Result<(), Halted>
    ensures { Goes (each_visited setup_visits 0 [] setups.now) result }
{
    for i in 0..setups.len() {
        met(Part::Setup(i), names::setup(alloc, &setups[i]))?;
    }
    Ok(())
}

fn decls(alloc: Global, events: &[Event], decls: &[Decl]) -> Result<(), Halted>
    ensures { Goes (each_visited (λ n before (d : AnyDecl). decl_visits events.now n (map decl_of before) (decl_of d)) 0 [] decls.now) result }
{
    for i in 0..decls.len() {
        met(
            Part::Decl(i),
            names::decl(alloc, events, &decls[..i], &decls[i]),
        )?;
    }
    Ok(())
}

fn outputs(alloc: Global, outputs: &[Output]) -> Result<(), Halted>
    ensures { Goes (each_visited (λ n before (o : AnyOutput). output_visits n (map output_of before) (output_of o)) 0 [] outputs.now) result }
{
    for i in 0..outputs.len() {
        met(
            Part::Output(i),
            names::output(alloc, &outputs[..i], &outputs[i]),
        )?;
    }
    Ok(())
}

// The names of an expression whose first node has this number. Answers the number behind its last node.
fn uses(alloc: Global, p: &Program, host: Host, node: usize, e: &Expr) -> Result<usize, Halted>
    requires { AreFew node (tree_of e.now) }
    ensures { Walks (use_visits (program_tree_of p.now) host node (tree_of e.now)) (IsBehind node (tree_of e.now)) result }
{
    match e {
        Expr::Const(_) => Ok(node + 1),
        Expr::Name(x) => {
            met(Part::Node { host, node }, names::name(alloc, p, x))?;
            Ok(node + 1)
        }
        Expr::Unary(_, a) => uses(alloc, p, host, node + 1, a),
        Expr::Binary(_, a, b) => {
            let own = uses(alloc, p, host, node, a)?;
            uses(alloc, p, host, own + 1, b)
        }
        Expr::Shift(_, a, _) => {
            let own = uses(alloc, p, host, node, a)?;
            Ok(own + 1)
        }
        Expr::If(c, a, b) => {
            let second = uses(alloc, p, host, node + 1, c)?;
            let last = uses(alloc, p, host, second, a)?;
            uses(alloc, p, host, last, b)
        }
        Expr::Convert(_, a) => uses(alloc, p, host, node + 1, a),
        Expr::Look(table, index) => {
            met(Part::Node { host, node }, names::indexed(alloc, p, table))?;
            uses(alloc, p, host, node + 1, index)
        }
    }
}

// The names of a whole expression.
fn expression(alloc: Global, p: &Program, host: Host, e: &Expr) -> Result<(), Halted>
    requires { AreFew 0 (tree_of e.now) }
    ensures { Goes (use_visits (program_tree_of p.now) host 0 (tree_of e.now)) result }
{
    uses(alloc, p, host, 0, e)?;
    Ok(())
}

fn clauses(
    alloc: Global,
    p: &Program,
    owner: &Text,
    decl: usize,
    clauses: &[Clause],
) -> Result<(), Halted>
    requires { AllByRecursion (λ (c : AnyClause). AreFew 0 (tree_of c.expr)) clauses.now }
    ensures { Goes (each_visited (λ n before (c : AnyClause). clause_visits (program_tree_of p.now) owner.now decl n (map clause_of before) (clause_of c)) 0 [] clauses.now) result }
{
    for i in 0..clauses.len() {
        let c = &clauses[i];
        let told = names::clause_event(alloc, p, owner, &clauses[..i], c);
        met(Part::Clause { decl, clause: i }, told)?;
        expression(alloc, p, Host::Clause { decl, clause: i }, &c.expr)?;
    }
    Ok(())
}

fn behaviour(
    alloc: Global,
    p: &Program,
    owner: &Text,
    decl: usize,
    b: &Behaviour,
) -> Result<(), Halted>
    requires { HaveFew (behaviour_of b.now) }
    ensures { Goes (behaviour_visits (program_tree_of p.now) owner.now decl (behaviour_of b.now)) result }
{
    match b {
        Behaviour::Plain(e) => expression(alloc, p, Host::Decl(decl), e),
        Behaviour::Input(_) => Ok(()),
        Behaviour::Table(_) => Ok(()),
        Behaviour::Reactive {
            init: _,
            clauses: its_clauses,
        } => clauses(alloc, p, owner, decl, its_clauses.as_slice()),
    }
}

fn behaviours(alloc: Global, p: &Program, decls: &[Decl]) -> Result<(), Halted>
    requires { AllByRecursion (λ (d : AnyDecl). HaveFew (behaviour_of d.behaviour)) decls.now }
    ensures { Goes (each_visited (λ n before (d : AnyDecl). behaviour_visits (program_tree_of p.now) d.name n (behaviour_of d.behaviour)) 0 [] decls.now) result }
{
    for i in 0..decls.len() {
        let d = &decls[i];
        behaviour(alloc, p, &d.name, i, &d.behaviour)?;
    }
    Ok(())
}

fn written(alloc: Global, p: &Program, outputs: &[Output]) -> Result<(), Halted>
    requires { AllByRecursion (λ (o : AnyOutput). AreFew 0 (tree_of o.expr)) outputs.now }
    ensures { Goes (each_visited (λ n before (o : AnyOutput). use_visits (program_tree_of p.now) (host.Output n) 0 (tree_of o.expr)) 0 [] outputs.now) result }
{
    for i in 0..outputs.len() {
        let o = &outputs[i];
        expression(alloc, p, Host::Output(i), &o.expr)?;
    }
    Ok(())
}

// The first walk: all items.
fn items(alloc: Global, p: &Program) -> Result<(), Halted>
    ensures { Goes (item_visits (program_tree_of p.now)) result }
{
    events(alloc, p.events.as_slice())?;
    setups(alloc, p.setups.as_slice())?;
    decls(alloc, p.events.as_slice(), p.decls.as_slice())?;
    outputs(alloc, p.outputs.as_slice())
}

// The second walk: the expressions.
fn expressions(alloc: Global, p: &Program) -> Result<(), Halted>
    requires { IsWellFormed (program_tree_of p.now) }
    ensures { Goes (expression_visits (program_tree_of p.now)) result }
{
    behaviours(alloc, p, p.decls.as_slice())?;
    written(alloc, p, p.outputs.as_slice())
}

/// The walk over a program's names, up to the first part that has a fault.
pub fn walk_names(alloc: Global, p: &Program) -> Result<(), Halted>
    requires { IsWellFormed (program_tree_of p.now) }
    ensures { Goes (name_visits (program_tree_of p.now)) result }
{
    items(alloc, p)?;
    expressions(alloc, p)
}
