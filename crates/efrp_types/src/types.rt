// The check of types: a walk over setups, definitions and outputs, in which each expression is gone through once.
ghost use Rattle.std.specs.Prelude.{◌≡◌, [], Some};
ghost use Rattle.std.specs.List.{AllByRecursion};
ghost use Rattle.frp_tree.specs.declared.syntax.Lit.{Lit as AnyLit};
ghost use Rattle.frp_tree.specs.declared.syntax.Clause.{Clause as AnyClause};
ghost use Rattle.frp_tree.specs.declared.syntax.Decl.{Decl as AnyDecl};
ghost use Rattle.frp_tree.specs.declared.syntax.Output.{Output as AnyOutput};
ghost use Rattle.frp_tree.specs.declared.syntax.Setup.{Setup as AnySetup};
ghost use Rattle.frp_tree.specs.declared.syntax.Ty.{Ty as AnyTy};
ghost use Rattle.frp_tree.specs.declared.syntax.Ty.TheVariants.{U8};
ghost use Rattle.frp_tree.specs.Tree.{behaviour_of, program_tree_of, tree_of, ProgramTree};
ghost use Rattle.efrp_meaning.specs.Types.{type_of};
ghost use Rattle.efrp_types.specs.Answers.{Tells, TellsType};
ghost use Rattle.efrp_types.specs.NameFaults.{each_after};
ghost use Rattle.efrp_types.specs.Numbers.{AreNamesOf};
ghost use Rattle.efrp_types.specs.Ready.{AreFit, IsFit, IsReady};
ghost use Rattle.efrp_types.specs.TypeFaults.{behaviour_type_faults, faults_as, faults_in, literal_faults, setup_byte_faults, type_faults};

use crate::faults::CheckFault;
use crate::nodes::{binary, choice, convert, literal, shift, unary, unlike, value_type};
use crate::reasons::{Reason, refuse_if};
use crate::table::Names;
use frp_tree::{Behaviour, Clause, Decl, Expr, Lit, Output, Program, Setup, Text, Ty};
use std::alloc::Global;

/// The type of an expression.
fn type_in(
    alloc: Global,
    p: &Program,
    names: &Names,
    owner: &Text,
    e: &Expr,
) -> Result<Ty, CheckFault>
    requires named { AreNamesOf names.now (program_tree_of p.now) }
    requires fit { IsFit (program_tree_of p.now) (tree_of e.now) }
    ensures { TellsType (faults_in (program_tree_of p.now) owner.now (tree_of e.now)) (type_of (program_tree_of p.now) (tree_of e.now)) result }
{
    match e {
        Expr::Const(lit) => literal(alloc, owner, *lit),
        Expr::Name(x) => Ok(names.decl(p, x).ty),
        Expr::Unary(op, a) => {
            let a = type_in(alloc, p, names, owner, a)?;
            unary(alloc, owner, *op, a)
        }
        Expr::Binary(op, a, b) => {
            let a = type_in(alloc, p, names, owner, a)?;
            let b = type_in(alloc, p, names, owner, b)?;
            binary(alloc, owner, *op, a, b)
        }
        Expr::Shift(_, a, amount) => {
            let a = type_in(alloc, p, names, owner, a)?;
            shift(alloc, owner, a, *amount)
        }
        Expr::If(c, a, b) => {
            let c = type_in(alloc, p, names, owner, c)?;
            let a = type_in(alloc, p, names, owner, a)?;
            let b = type_in(alloc, p, names, owner, b)?;
            choice(alloc, owner, c, a, b)
        }
        Expr::Convert(to, a) => {
            let a = type_in(alloc, p, names, owner, a)?;
            convert(alloc, owner, *to, a)
        }
        Expr::Look(table, index) => {
            let index = type_in(alloc, p, names, owner, index)?;
            unlike(alloc, owner, Ty::U8, index)?;
            Ok(names.decl(p, table).ty)
        }
    }
}

/// The type of an expression that has one, which follows from its first operand or from its name.
pub(crate) fn type_at(p: &Program, names: &Names, e: &Expr) -> Ty
    requires named { AreNamesOf names.now (program_tree_of p.now) }
    requires fit { IsFit (program_tree_of p.now) (tree_of e.now) }
    ensures { (t : AnyTy) → type_of (program_tree_of p.now) (tree_of e.now) ≡ Some t → result ≡ t }
{
    match e {
        Expr::Const(Lit::Plain(_)) => Ty::U8,
        Expr::Const(Lit::Wide(_)) => Ty::U16,
        Expr::Const(Lit::Truth(_)) => Ty::Bool,
        Expr::Name(x) => names.decl(p, x).ty,
        Expr::Unary(_, a) => type_at(p, names, a),
        Expr::Binary(op, a, _) => value_type(*op, type_at(p, names, a)),
        Expr::Shift(_, a, _) => type_at(p, names, a),
        Expr::If(_, a, _) => type_at(p, names, a),
        Expr::Convert(to, _) => *to,
        Expr::Look(table, _) => names.decl(p, table).ty,
    }
}

/// An expression of which a type is wanted.
fn as_type(
    alloc: Global,
    p: &Program,
    names: &Names,
    owner: &Text,
    wanted: Ty,
    e: &Expr,
) -> Result<(), CheckFault>
    requires named { AreNamesOf names.now (program_tree_of p.now) }
    requires fit { IsFit (program_tree_of p.now) (tree_of e.now) }
    ensures { Tells (faults_as (program_tree_of p.now) owner.now wanted (tree_of e.now)) result }
{
    let found = type_in(alloc, p, names, owner, e)?;
    unlike(alloc, owner, wanted, found)
}

/// A first value, or an entry, of which a type is wanted.
pub fn literal_as(alloc: Global, owner: &Text, wanted: Ty, lit: Lit) -> Result<(), CheckFault>
    ensures { (p : ProgramTree) → Tells (literal_faults p owner.now wanted lit) result }
{
    let found = literal(alloc, owner, lit)?;
    unlike(alloc, owner, wanted, found)
}

fn entries(alloc: Global, owner: &Text, wanted: Ty, entries: &[Lit]) -> Result<(), CheckFault>
    ensures { (p : ProgramTree) → Tells (each_after (λ before (l : AnyLit). literal_faults p owner.now wanted l) [] entries.now) result }
{
    for i in 0..entries.len() {
        literal_as(alloc, owner, wanted, entries[i])?;
    }
    Ok(())
}

fn clauses(
    alloc: Global,
    p: &Program,
    names: &Names,
    owner: &Text,
    wanted: Ty,
    clauses: &[Clause],
) -> Result<(), CheckFault>
    requires named { AreNamesOf names.now (program_tree_of p.now) }
    requires fit { AllByRecursion (λ (c : AnyClause). IsFit (program_tree_of p.now) (tree_of c.expr)) clauses.now }
    ensures { Tells (each_after (λ before (c : AnyClause). faults_as (program_tree_of p.now) owner.now wanted (tree_of c.expr)) [] clauses.now) result }
{
    for i in 0..clauses.len() {
        let c = &clauses[i];
        as_type(alloc, p, names, owner, wanted, &c.expr)?;
    }
    Ok(())
}

fn behaviour(alloc: Global, p: &Program, names: &Names, d: &Decl) -> Result<(), CheckFault>
    requires named { AreNamesOf names.now (program_tree_of p.now) }
    requires fit { AreFit (program_tree_of p.now) (behaviour_of d.now.behaviour) }
    ensures { Tells (behaviour_type_faults (program_tree_of p.now) d.now.name d.now.ty (behaviour_of d.now.behaviour)) result }
{
    match &d.behaviour {
        Behaviour::Plain(e) => as_type(alloc, p, names, &d.name, d.ty, e),
        Behaviour::Input(_) => unlike(alloc, &d.name, d.ty, Ty::U8),
        Behaviour::Table(its_entries) => entries(alloc, &d.name, d.ty, its_entries.as_slice()),
        Behaviour::Reactive {
            init,
            clauses: its_clauses,
        } => {
            literal_as(alloc, &d.name, d.ty, *init)?;
            clauses(alloc, p, names, &d.name, d.ty, its_clauses.as_slice())
        }
    }
}

fn decls(alloc: Global, p: &Program, names: &Names, decls: &[Decl]) -> Result<(), CheckFault>
    requires named { AreNamesOf names.now (program_tree_of p.now) }
    requires fit { AllByRecursion (λ (d : AnyDecl). AreFit (program_tree_of p.now) (behaviour_of d.behaviour)) decls.now }
    ensures { Tells (each_after (λ before (d : AnyDecl). behaviour_type_faults (program_tree_of p.now) d.name d.ty (behaviour_of d.behaviour)) [] decls.now) result }
{
    for i in 0..decls.len() {
        behaviour(alloc, p, names, &decls[i])?;
    }
    Ok(())
}

fn outputs(alloc: Global, p: &Program, names: &Names, outputs: &[Output]) -> Result<(), CheckFault>
    requires named { AreNamesOf names.now (program_tree_of p.now) }
    requires fit { AllByRecursion (λ (o : AnyOutput). IsFit (program_tree_of p.now) (tree_of o.expr)) outputs.now }
    ensures { Tells (each_after (λ before (o : AnyOutput). faults_as (program_tree_of p.now) o.port U8 (tree_of o.expr)) [] outputs.now) result }
{
    for i in 0..outputs.len() {
        let o = &outputs[i];
        as_type(alloc, p, names, &o.port, Ty::U8, &o.expr)?;
    }
    Ok(())
}

/// The byte of a setup.
pub fn setup(alloc: Global, s: &Setup) -> Result<(), CheckFault>
    ensures { Tells (setup_byte_faults s.now) result }
{
    refuse_if(alloc, s.byte > 255, Reason::LiteralRange, &s.register)
}

fn setups(alloc: Global, setups: &[Setup]) -> Result<(), CheckFault>
    ensures { Tells (each_after (λ before (s : AnySetup). setup_byte_faults s) [] setups.now) result }
{
    for i in 0..setups.len() {
        setup(alloc, &setups[i])?;
    }
    Ok(())
}

/// The walk over a program whose names have no fault.
pub fn items(alloc: Global, p: &Program, names: &Names) -> Result<(), CheckFault>
    requires { IsReady names.now (program_tree_of p.now) }
    ensures { Tells (type_faults (program_tree_of p.now)) result }
{
    setups(alloc, p.setups.as_slice())?;
    decls(alloc, p, names, p.decls.as_slice())?;
    outputs(alloc, p, names, p.outputs.as_slice())
}
