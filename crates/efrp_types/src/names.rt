// The check of names: a walk over all items, and a second one over the expressions.
ghost use Rattle.std.specs.Prelude.{[], map, IfOk};
ghost use Rattle.frp_tree.specs.declared.syntax.Clause.{Clause as AnyClause};
ghost use Rattle.frp_tree.specs.declared.syntax.Decl.{Decl as AnyDecl};
ghost use Rattle.frp_tree.specs.declared.syntax.Output.{Output as AnyOutput};
ghost use Rattle.frp_tree.specs.declared.syntax.Setup.{Setup as AnySetup};
ghost use Rattle.frp_tree.specs.Tree.{behaviour_of, clause_of, decl_of, output_of, program_tree_of, tree_of};
ghost use Rattle.efrp_types.specs.Answers.{Tells};
ghost use Rattle.efrp_types.specs.NameFaults.{behaviour_faults, clause_event_faults, clause_faults, decl_faults, each_after, event_faults, expression_faults, index_fault, input_faults, item_faults, name_fault, name_faults, output_faults, port_faults, setup_faults, use_faults};
ghost use Rattle.efrp_types.specs.Numbers.{AreNamesOf};

use crate::faults::CheckFault;
use crate::lookups::{
    decl_named, is_clause, is_event, is_no_port, is_no_register, is_output, is_source, is_table,
    is_taken, is_used,
};
use crate::reasons::{Reason, refuse_clause_if, refuse_if};
use crate::table::Names;
use frp_tree::{Behaviour, Clause, Decl, Event, Expr, Output, Program, Setup, Text};
use std::alloc::Global;

/// An event, with those before it. Its first fault, or `Memory`.
pub fn event(alloc: Global, before: &[Event], e: &Event) -> Result<(), CheckFault>
    ensures { Tells (event_faults before.now e.now) result }
{
    refuse_if(alloc, is_event(before, &e.name), Reason::Twice, &e.name)?;
    refuse_if(
        alloc,
        !is_source(&e.source),
        Reason::UnknownSource,
        &e.source,
    )?;
    refuse_if(
        alloc,
        is_taken(before, &e.source),
        Reason::SourceTwice,
        &e.source,
    )?;
    let is_priority = 1 <= e.priority && e.priority <= 11;
    refuse_if(
        alloc,
        !is_priority,
        Reason::BadPriority(e.priority),
        &e.name,
    )
}

fn events(alloc: Global, events: &[Event]) -> Result<(), CheckFault>
    ensures { Tells (each_after event_faults [] events.now) result }
{
    for i in 0..events.len() {
        event(alloc, &events[..i], &events[i])?;
    }
    Ok(())
}

/// A setup. Its first fault, or `Memory`.
pub fn setup(alloc: Global, s: &Setup) -> Result<(), CheckFault>
    ensures { Tells (setup_faults s.now) result }
{
    refuse_if(
        alloc,
        is_no_register(&s.register),
        Reason::BadRegister,
        &s.register,
    )
}

fn setups(alloc: Global, setups: &[Setup]) -> Result<(), CheckFault>
    ensures { Tells (each_after (λ before (s : AnySetup). setup_faults s) [] setups.now) result }
{
    for i in 0..setups.len() {
        setup(alloc, &setups[i])?;
    }
    Ok(())
}

fn port(alloc: Global, port: &Text) -> Result<(), CheckFault>
    ensures { Tells (port_faults port.now) result }
{
    refuse_if(alloc, is_no_port(port), Reason::BadRegister, port)
}

fn input(alloc: Global, behaviour: &Behaviour) -> Result<(), CheckFault>
    ensures { Tells (input_faults (behaviour_of behaviour.now)) result }
{
    match behaviour {
        Behaviour::Input(its_port) => port(alloc, its_port),
        _ => Ok(()),
    }
}

/// A definition, with the events and the definitions before it. Its first fault, or `Memory`.
pub fn decl(alloc: Global, events: &[Event], before: &[Decl], d: &Decl) -> Result<(), CheckFault>
    ensures { Tells (decl_faults events.now (map decl_of before.now) (decl_of d.now)) result }
{
    refuse_if(
        alloc,
        is_used(events, before, &d.name),
        Reason::Twice,
        &d.name,
    )?;
    input(alloc, &d.behaviour)
}

fn decls(alloc: Global, events: &[Event], decls: &[Decl]) -> Result<(), CheckFault>
    ensures { Tells (each_after (λ before (d : AnyDecl). decl_faults events.now (map decl_of before) (decl_of d)) [] decls.now) result }
{
    for i in 0..decls.len() {
        decl(alloc, events, &decls[..i], &decls[i])?;
    }
    Ok(())
}

/// An output, with those before it. Its first fault, or `Memory`.
pub fn output(alloc: Global, before: &[Output], o: &Output) -> Result<(), CheckFault>
    ensures { Tells (output_faults (map output_of before.now) (output_of o.now)) result }
{
    port(alloc, &o.port)?;
    refuse_if(
        alloc,
        is_output(before, &o.port),
        Reason::OutputTwice,
        &o.port,
    )
}

fn outputs(alloc: Global, outputs: &[Output]) -> Result<(), CheckFault>
    ensures { Tells (each_after (λ before (o : AnyOutput). output_faults (map output_of before) (output_of o)) [] outputs.now) result }
{
    for i in 0..outputs.len() {
        output(alloc, &outputs[..i], &outputs[i])?;
    }
    Ok(())
}

/// A name that stands by itself in an expression. Its first fault, or `Memory`.
pub fn name(alloc: Global, p: &Program, x: &Text) -> Result<(), CheckFault>
    ensures { Tells (name_fault (program_tree_of p.now) x.now) result }
{
    match decl_named(p.decls.as_slice(), x) {
        Some(d) => refuse_if(alloc, is_table(&d.behaviour), Reason::TableUse, x),
        None => refuse_if(alloc, true, Reason::UnknownName, x),
    }
}

/// A name that is indexed. Its first fault, or `Memory`.
pub fn indexed(alloc: Global, p: &Program, x: &Text) -> Result<(), CheckFault>
    ensures { Tells (index_fault (program_tree_of p.now) x.now) result }
{
    match decl_named(p.decls.as_slice(), x) {
        Some(d) => refuse_if(alloc, !is_table(&d.behaviour), Reason::TableUse, x),
        None => refuse_if(alloc, true, Reason::UnknownName, x),
    }
}

fn uses(alloc: Global, p: &Program, e: &Expr) -> Result<(), CheckFault>
    ensures { Tells (use_faults (program_tree_of p.now) (tree_of e.now)) result }
{
    match e {
        Expr::Const(_) => Ok(()),
        Expr::Name(x) => name(alloc, p, x),
        Expr::Unary(_, a) => uses(alloc, p, a),
        Expr::Binary(_, a, b) => {
            uses(alloc, p, a)?;
            uses(alloc, p, b)
        }
        Expr::Shift(_, a, _) => uses(alloc, p, a),
        Expr::If(c, a, b) => {
            uses(alloc, p, c)?;
            uses(alloc, p, a)?;
            uses(alloc, p, b)
        }
        Expr::Convert(_, a) => uses(alloc, p, a),
        Expr::Look(table, index) => {
            indexed(alloc, p, table)?;
            uses(alloc, p, index)
        }
    }
}

/// The event of a clause, with the clauses before it, of the definition of this name. Its first fault, or `Memory`.
pub fn clause_event(
    alloc: Global,
    p: &Program,
    owner: &Text,
    before: &[Clause],
    c: &Clause,
) -> Result<(), CheckFault>
    ensures { Tells (clause_event_faults (program_tree_of p.now) owner.now (map clause_of before.now) (clause_of c.now)) result }
{
    let is_unknown = !is_event(p.events.as_slice(), &c.event);
    refuse_if(alloc, is_unknown, Reason::UnknownEvent, &c.event)?;
    refuse_clause_if(alloc, is_clause(before, &c.event), owner, &c.event)
}

fn clause(
    alloc: Global,
    p: &Program,
    owner: &Text,
    before: &[Clause],
    c: &Clause,
) -> Result<(), CheckFault>
    ensures { Tells (clause_faults (program_tree_of p.now) owner.now (map clause_of before.now) (clause_of c.now)) result }
{
    clause_event(alloc, p, owner, before, c)?;
    uses(alloc, p, &c.expr)
}

fn clauses(alloc: Global, p: &Program, owner: &Text, clauses: &[Clause]) -> Result<(), CheckFault>
    ensures { Tells (each_after (λ before (c : AnyClause). clause_faults (program_tree_of p.now) owner.now (map clause_of before) (clause_of c)) [] clauses.now) result }
{
    for i in 0..clauses.len() {
        clause(alloc, p, owner, &clauses[..i], &clauses[i])?;
    }
    Ok(())
}

fn behaviour(alloc: Global, p: &Program, owner: &Text, b: &Behaviour) -> Result<(), CheckFault>
    ensures { Tells (behaviour_faults (program_tree_of p.now) owner.now (behaviour_of b.now)) result }
{
    match b {
        Behaviour::Plain(e) => uses(alloc, p, e),
        Behaviour::Input(_) => Ok(()),
        Behaviour::Table(_) => Ok(()),
        Behaviour::Reactive {
            init: _,
            clauses: its_clauses,
        } => clauses(alloc, p, owner, its_clauses.as_slice()),
    }
}

fn behaviours(alloc: Global, p: &Program, decls: &[Decl]) -> Result<(), CheckFault>
    ensures { Tells (each_after (λ before (d : AnyDecl). behaviour_faults (program_tree_of p.now) d.name (behaviour_of d.behaviour)) [] decls.now) result }
{
    for i in 0..decls.len() {
        let d = &decls[i];
        behaviour(alloc, p, &d.name, &d.behaviour)?;
    }
    Ok(())
}

fn written(alloc: Global, p: &Program, outputs: &[Output]) -> Result<(), CheckFault>
    ensures { Tells (each_after (λ before (o : AnyOutput). use_faults (program_tree_of p.now) (tree_of o.expr)) [] outputs.now) result }
{
    for i in 0..outputs.len() {
        let o = &outputs[i];
        uses(alloc, p, &o.expr)?;
    }
    Ok(())
}

/// The first walk: events, setups, definitions and outputs, in this order.
fn items(alloc: Global, p: &Program) -> Result<(), CheckFault>
    ensures { Tells (item_faults (program_tree_of p.now)) result }
{
    events(alloc, p.events.as_slice())?;
    setups(alloc, p.setups.as_slice())?;
    decls(alloc, p.events.as_slice(), p.decls.as_slice())?;
    outputs(alloc, p.outputs.as_slice())
}

/// The second walk: the expressions of the definitions and of the outputs.
fn expressions(alloc: Global, p: &Program) -> Result<(), CheckFault>
    ensures { Tells (expression_faults (program_tree_of p.now)) result }
{
    behaviours(alloc, p, p.decls.as_slice())?;
    written(alloc, p, p.outputs.as_slice())
}

/// The names of a program, where they have no fault; else the first fault that is met. Items come first: each event is
/// tested for `Twice`, `UnknownSource`, `SourceTwice` and `BadPriority`, each setup for `BadRegister`, each definition for
/// `Twice` and an input for `BadRegister`, each output for `BadRegister` and `OutputTwice`. Then come expressions:
/// each clause is tested for `UnknownEvent` and `ClauseTwice`, and each name, from left to right, for `UnknownName`
/// and `TableUse`. `Memory` may be told in place of another fault or of none. The time is at most the square of the
/// program's length.
pub fn check_names(alloc: Global, p: &Program) -> Result<Names, CheckFault>
    ensures faults { Tells (name_faults (program_tree_of p.now)) result }
    ensures names { IfOk result (λ names. AreNamesOf names (program_tree_of p.now)) }
{
    items(alloc, p)?;
    expressions(alloc, p)?;
    Ok(Names::of_program(alloc, p)?)
}
