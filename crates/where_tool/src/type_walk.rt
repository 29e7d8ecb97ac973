// The walk of the check of types, up to the first part that has a fault. Each expression is gone through once.
ghost use Rattle.std.specs.Prelude.{[]};
ghost use Rattle.std.specs.List.{AllByRecursion};
ghost use Rattle.frp_tree.specs.declared.syntax.Clause.{Clause as AnyClause};
ghost use Rattle.frp_tree.specs.declared.syntax.Decl.{Decl as AnyDecl};
ghost use Rattle.frp_tree.specs.declared.syntax.Output.{Output as AnyOutput};
ghost use Rattle.frp_tree.specs.declared.syntax.Ty.TheVariants.{U8};
ghost use Rattle.frp_tree.specs.Tree.{behaviour_of, program_tree_of, tree_of, ProgramTree};
ghost use Rattle.efrp_types.specs.Numbers.{AreNamesOf};
ghost use Rattle.efrp_types.specs.Ready.{AreFit, IsFit, IsReady};
ghost use Rattle.where_tool.specs.declared.parts.Host.TheVariants as host;
ghost use Rattle.where_tool.specs.Visits.{behaviour_type_visits, each_visited, entry_visits, setup_byte_visits, type_visits, typed_visits, types_visits};
ghost use Rattle.where_tool.specs.Walks.{AreFew, Goes, HaveFew, IsTyping, Walks};

use crate::meetings::{met, met_type};
use crate::parts::{Halted, Host, Part};
use efrp_types::{Names, nodes, types};
use frp_tree::{Behaviour, Clause, Decl, Expr, Lit, Output, Program, Setup, Text, Ty};
use std::alloc::Global;

/// The type of an expression, the number of its own node, and the number behind its last one.
#[derive(Clone, Copy, Debug, PartialEq, Eq)]
pub struct Typing {
    pub ty: Ty,
    pub own: usize,
    pub next: usize,
}

// The type of an expression of this owner whose first node has this number.
fn type_in(
    alloc: Global,
    p: &Program,
    names: &Names,
    owner: &Text,
    host: Host,
    node: usize,
    e: &Expr,
) -> Result<Typing, Halted>
    requires named { AreNamesOf names.now (program_tree_of p.now) }
    requires fit { IsFit (program_tree_of p.now) (tree_of e.now) }
    requires few { AreFew node (tree_of e.now) }
    ensures { Walks (type_visits (program_tree_of p.now) owner.now host node (tree_of e.now)) (IsTyping (program_tree_of p.now) node (tree_of e.now)) result }
{
    let own = node;
    let part = Part::Node { host, node };
    match e {
        Expr::Const(lit) => {
            let ty = met_type(part, nodes::literal(alloc, owner, *lit))?;
            let next = node + 1;
            Ok(Typing { ty, own, next })
        }
        Expr::Name(x) => {
            let ty = names.decl(p, x).ty;
            let next = node + 1;
            Ok(Typing { ty, own, next })
        }
        Expr::Unary(op, a) => {
            let a = type_in(alloc, p, names, owner, host, node + 1, a)?;
            let ty = met_type(part, nodes::unary(alloc, owner, *op, a.ty))?;
            let next = a.next;
            Ok(Typing { ty, own, next })
        }
        Expr::Binary(op, a, b) => {
            let a = type_in(alloc, p, names, owner, host, node, a)?;
            let own = a.next;
            let b = type_in(alloc, p, names, owner, host, own + 1, b)?;
            let part = Part::Node { host, node: own };
            let ty = met_type(part, nodes::binary(alloc, owner, *op, a.ty, b.ty))?;
            let next = b.next;
            Ok(Typing { ty, own, next })
        }
        Expr::Shift(_, a, amount) => {
            let a = type_in(alloc, p, names, owner, host, node, a)?;
            let own = a.next;
            let part = Part::Node { host, node: own };
            let ty = met_type(part, nodes::shift(alloc, owner, a.ty, *amount))?;
            let next = own + 1;
            Ok(Typing { ty, own, next })
        }
        Expr::If(c, a, b) => {
            let c = type_in(alloc, p, names, owner, host, node + 1, c)?;
            let a = type_in(alloc, p, names, owner, host, c.next, a)?;
            let b = type_in(alloc, p, names, owner, host, a.next, b)?;
            let ty = met_type(part, nodes::choice(alloc, owner, c.ty, a.ty, b.ty))?;
            let next = b.next;
            Ok(Typing { ty, own, next })
        }
        Expr::Convert(to, a) => {
            let a = type_in(alloc, p, names, owner, host, node + 1, a)?;
            let ty = met_type(part, nodes::convert(alloc, owner, *to, a.ty))?;
            let next = a.next;
            Ok(Typing { ty, own, next })
        }
        Expr::Look(table, index) => {
            let index = type_in(alloc, p, names, owner, host, node + 1, index)?;
            met(part, nodes::unlike(alloc, owner, Ty::U8, index.ty))?;
            let ty = names.decl(p, table).ty;
            let next = index.next;
            Ok(Typing { ty, own, next })
        }
    }
}

// An expression of which a type is wanted.
fn expression(
    alloc: Global,
    p: &Program,
    names: &Names,
    owner: &Text,
    host: Host,
    wanted: Ty,
    e: &Expr,
) -> Result<(), Halted>
    requires named { AreNamesOf names.now (program_tree_of p.now) }
    requires fit { IsFit (program_tree_of p.now) (tree_of e.now) }
    requires few { AreFew 0 (tree_of e.now) }
    ensures { Goes (typed_visits (program_tree_of p.now) owner.now host wanted (tree_of e.now)) result }
{
    let found = type_in(alloc, p, names, owner, host, 0, e)?;
    let part = Part::Node {
        host,
        node: found.own,
    };
    met(part, nodes::unlike(alloc, owner, wanted, found.ty))
}

fn entries(
    alloc: Global,
    owner: &Text,
    wanted: Ty,
    decl: usize,
    entries: &[Lit],
) -> Result<(), Halted>
    ensures { (p : ProgramTree) → Goes (each_visited (entry_visits p owner.now wanted decl) 0 [] entries.now) result }
{
    for i in 0..entries.len() {
        let told = types::literal_as(alloc, owner, wanted, entries[i]);
        met(Part::Entry { decl, entry: i }, told)?;
    }
    Ok(())
}

fn clauses(
    alloc: Global,
    p: &Program,
    names: &Names,
    d: &Decl,
    decl: usize,
    clauses: &[Clause],
) -> Result<(), Halted>
    requires named { AreNamesOf names.now (program_tree_of p.now) }
    requires fit { AllByRecursion (λ (c : AnyClause). IsFit (program_tree_of p.now) (tree_of c.expr)) clauses.now }
    requires few { AllByRecursion (λ (c : AnyClause). AreFew 0 (tree_of c.expr)) clauses.now }
    ensures { Goes (each_visited (λ n before (c : AnyClause). typed_visits (program_tree_of p.now) d.now.name (host.Clause decl n) d.now.ty (tree_of c.expr)) 0 [] clauses.now) result }
{
    for i in 0..clauses.len() {
        let c = &clauses[i];
        let host = Host::Clause { decl, clause: i };
        expression(alloc, p, names, &d.name, host, d.ty, &c.expr)?;
    }
    Ok(())
}

fn behaviour(alloc: Global, p: &Program, names: &Names, d: &Decl, decl: usize) -> Result<(), Halted>
    requires named { AreNamesOf names.now (program_tree_of p.now) }
    requires fit { AreFit (program_tree_of p.now) (behaviour_of d.now.behaviour) }
    requires few { HaveFew (behaviour_of d.now.behaviour) }
    ensures { Goes (behaviour_type_visits (program_tree_of p.now) d.now.name d.now.ty decl (behaviour_of d.now.behaviour)) result }
{
    match &d.behaviour {
        Behaviour::Plain(e) => expression(alloc, p, names, &d.name, Host::Decl(decl), d.ty, e),
        Behaviour::Input(_) => {
            met(
                Part::Decl(decl),
                nodes::unlike(alloc, &d.name, d.ty, Ty::U8),
            )
        }
        Behaviour::Table(its_entries) => {
            entries(alloc, &d.name, d.ty, decl, its_entries.as_slice())
        }
        Behaviour::Reactive {
            init,
            clauses: its_clauses,
        } => {
            let told = types::literal_as(alloc, &d.name, d.ty, *init);
            met(Part::Decl(decl), told)?;
            clauses(alloc, p, names, d, decl, its_clauses.as_slice())
        }
    }
}

fn decls(alloc: Global, p: &Program, names: &Names, decls: &[Decl]) -> Result<(), Halted>
    requires named { AreNamesOf names.now (program_tree_of p.now) }
    requires fit { AllByRecursion (λ (d : AnyDecl). AreFit (program_tree_of p.now) (behaviour_of d.behaviour)) decls.now }
    requires few { AllByRecursion (λ (d : AnyDecl). HaveFew (behaviour_of d.behaviour)) decls.now }
    ensures { Goes (each_visited (λ n before (d : AnyDecl). behaviour_type_visits (program_tree_of p.now) d.name d.ty n (behaviour_of d.behaviour)) 0 [] decls.now) result }
{
    for i in 0..decls.len() {
        behaviour(alloc, p, names, &decls[i], i)?;
    }
    Ok(())
}

fn outputs(alloc: Global, p: &Program, names: &Names, outputs: &[Output]) -> Result<(), Halted>
    requires named { AreNamesOf names.now (program_tree_of p.now) }
    requires fit { AllByRecursion (λ (o : AnyOutput). IsFit (program_tree_of p.now) (tree_of o.expr)) outputs.now }
    requires few { AllByRecursion (λ (o : AnyOutput). AreFew 0 (tree_of o.expr)) outputs.now }
    ensures { Goes (each_visited (λ n before (o : AnyOutput). typed_visits (program_tree_of p.now) o.port (host.Output n) U8 (tree_of o.expr)) 0 [] outputs.now) result }
{
    for i in 0..outputs.len() {
        let o = &outputs[i];
        expression(alloc, p, names, &o.port, Host::Output(i), Ty::U8, &o.expr)?;
    }
    Ok(())
}

fn setups(alloc: Global, setups: &[Setup]) -> Result<(), Halted>
    ensures { Goes (each_visited setup_byte_visits 0 [] setups.now) result }
{
    for i in 0..setups.len() {
        met(Part::Setup(i), types::setup(alloc, &setups[i]))?;
    }
    Ok(())
}

/// The walk over the types of a program whose names have no fault, up to the first part that has one.
pub fn walk_types(alloc: Global, p: &Program, names: &Names) -> Result<(), Halted>
    requires { IsReady names.now (program_tree_of p.now) }
    ensures { Goes (types_visits (program_tree_of p.now)) result }
{
    setups(alloc, p.setups.as_slice())?;
    decls(alloc, p, names, p.decls.as_slice())?;
    outputs(alloc, p, names, p.outputs.as_slice())
}
