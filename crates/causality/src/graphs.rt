// The graph of a program on an event: for each definition the numbers of those on which it depends.
ghost use Rattle.std.specs.Prelude.{◌≡◌, ◌++◌, map, IfOk, OnOk, option_map};
ghost use Rattle.std.specs.Option.{option_copied};
ghost use Rattle.frp_tree.specs.Tree.{behaviour_of, clause_of, program_tree_of, tree_of};
ghost use Rattle.efrp_meaning.specs.Meaning.{rule_on};
ghost use Rattle.efrp_meaning.specs.Needs.{clause_for, names_in};
ghost use Rattle.causality.specs.Graphs.{edges_by, graph_on, numbers_of, number_of};

use efrp_types::Typed;
use frp_tree::{Behaviour, Clause, Decl, Expr, List, Text};
use std::alloc::{AllocError, Global};

fn clause_for<'a>(clauses: &'a [Clause], event: &Text) -> Option<&'a Clause>
    ensures { option_map clause_of (option_copied result) ≡ clause_for event.now (map clause_of clauses.now) }
{
    for c in clauses {
        if event.as_str() == c.event.as_str() {
            return Some(c);
        }
    }
    None
}

fn put_name(
    numbers: &mut List<u8>,
    t: &Typed,
    owner: &Text,
    is_own_state: bool,
    x: &Text,
) -> Result<(), AllocError>
    ensures { OnOk result (numbers.new ≡ numbers.old ++ number_of (program_tree_of t.now.program) owner.now is_own_state x.now) }
{
    if is_own_state && owner.as_str() == x.as_str() {
        return Ok(());
    }
    match t.decl_number(x) {
        Some(n) => numbers.push(n),
        None => Ok(()),
    }
}

fn put_names(
    numbers: &mut List<u8>,
    t: &Typed,
    owner: &Text,
    is_own_state: bool,
    e: &Expr,
) -> Result<(), AllocError>
    ensures { OnOk result (numbers.new ≡ numbers.old ++ numbers_of (program_tree_of t.now.program) owner.now is_own_state (names_in (tree_of e.now))) }
{
    match e {
        Expr::Const(_) => Ok(()),
        Expr::Name(x) => put_name(numbers, t, owner, is_own_state, x),
        Expr::Unary(_, a) => put_names(numbers, t, owner, is_own_state, a),
        Expr::Binary(_, a, b) => {
            put_names(numbers, t, owner, is_own_state, a)?;
            put_names(numbers, t, owner, is_own_state, b)
        }
        Expr::Shift(_, a, _) => put_names(numbers, t, owner, is_own_state, a),
        Expr::If(c, a, b) => {
            put_names(numbers, t, owner, is_own_state, c)?;
            put_names(numbers, t, owner, is_own_state, a)?;
            put_names(numbers, t, owner, is_own_state, b)
        }
        Expr::Convert(_, a) => put_names(numbers, t, owner, is_own_state, a),
        Expr::Look(_, index) => put_names(numbers, t, owner, is_own_state, index),
    }
}

fn named(
    alloc: Global,
    t: &Typed,
    owner: &Text,
    is_own_state: bool,
    e: &Expr,
) -> Result<List<u8>, AllocError>
    ensures { IfOk result (λ ns. ns ≡ numbers_of (program_tree_of t.now.program) owner.now is_own_state (names_in (tree_of e.now))) }
{
    let mut numbers = List::new(alloc);
    put_names(&mut numbers, t, owner, is_own_state, e)?;
    Ok(numbers)
}

fn edges_of(alloc: Global, t: &Typed, event: &Text, d: &Decl) -> Result<List<u8>, AllocError>
    ensures { IfOk result (λ ns. ns ≡ edges_by (program_tree_of t.now.program) d.now.name (rule_on event.now (behaviour_of d.now.behaviour))) }
{
    match &d.behaviour {
        Behaviour::Plain(e) => named(alloc, t, &d.name, false, e),
        Behaviour::Input(_) => Ok(List::new(alloc)),
        Behaviour::Table(_) => Ok(List::new(alloc)),
        Behaviour::Reactive { init: _, clauses } => {
            match clause_for(clauses.as_slice(), event) {
                Some(c) if !c.later => named(alloc, t, &d.name, true, &c.expr),
                _ => Ok(List::new(alloc)),
            }
        }
    }
}

/// For each definition, by its number, the numbers of those on which it depends on an event. An `Err` is out of memory.
pub fn graph_on(alloc: Global, t: &Typed, event: &Text) -> Result<List<List<u8>>, AllocError>
    ensures { IfOk result (λ g. g ≡ graph_on (program_tree_of t.now.program) event.now) }
{
    let decls = t.program().decls.as_slice();
    let mut graph = List::new(alloc);
    for d in decls {
        graph.push(edges_of(alloc, t, event, d)?)?;
    }
    Ok(graph)
}
