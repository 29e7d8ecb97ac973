// Marks on the definitions that are named in expressions.
ghost use Rattle.std.specs.Prelude.{◌≡◌, ◌<◌, [], false, fold, if◌then◌else◌, length, replicate, IfOk};
ghost use Rattle.std.specs.List.{flat_map};
ghost use Rattle.frp_tree.specs.Tree.{behaviour_of, program_tree_of, tree_of};
ghost use Rattle.efrp_meaning.specs.Needs.{first_needed, names_in, reacting_expression};
ghost use Rattle.efrp_types.specs.Numbers.{event_name};
ghost use Rattle.event_needs.specs.Marking.{AreNamed, clause_expressions, own_names, with_name};
ghost use Rattle.event_needs.specs.Needed.{named_on};

use crate::lookups::clause_on;
use causality::Checked;
use efrp_types::Typed;
use frp_tree::{Behaviour, Decl, Expr, Text};
use std::alloc::{AllocError, Global};

/// So many marks, none of which is set. An `Err` is out of memory.
pub(crate) fn no_marks(alloc: Global, count: usize) -> Result<Vec<bool>, AllocError>
    ensures { IfOk result (λ v. v.items ≡ replicate count false) }
{
    let mut marked = Vec::new(alloc);
    for _ in 0..count {
        marked.push(false)?;
    }
    Ok(marked)
}

fn mark_name(typed: &Typed, marked: &mut Vec<bool>, x: &Text)
    requires { length marked.old.items ≡ length typed.now.program.decls }
    ensures long { length marked.new.items ≡ length marked.old.items }
    ensures mark { marked.new.items ≡ with_name (program_tree_of typed.now.program) marked.old.items x.now }
{
    if let Some(n) = typed.decl_number(x) {
        marked[n as usize] = true;
    }
}

fn mark_names(typed: &Typed, marked: &mut Vec<bool>, e: &Expr)
    requires { length marked.old.items ≡ length typed.now.program.decls }
    ensures long { length marked.new.items ≡ length marked.old.items }
    ensures marks { marked.new.items ≡ fold (with_name (program_tree_of typed.now.program)) marked.old.items (names_in (tree_of e.now)) }
{
    match e {
        Expr::Const(_) => {}
        Expr::Name(x) => mark_name(typed, marked, x),
        Expr::Unary(_, a) => mark_names(typed, marked, a),
        Expr::Binary(_, a, b) => {
            mark_names(typed, marked, a);
            mark_names(typed, marked, b);
        }
        Expr::Shift(_, a, _) => mark_names(typed, marked, a),
        Expr::If(c, a, b) => {
            mark_names(typed, marked, c);
            mark_names(typed, marked, a);
            mark_names(typed, marked, b);
        }
        Expr::Convert(_, a) => mark_names(typed, marked, a),
        Expr::Look(_, index) => mark_names(typed, marked, index),
    }
}

fn mark_clause(typed: &Typed, event: &Text, marked: &mut Vec<bool>, d: &Decl)
    requires { length marked.old.items ≡ length typed.now.program.decls }
    ensures long { length marked.new.items ≡ length marked.old.items }
    ensures marks { marked.new.items ≡ fold (with_name (program_tree_of typed.now.program)) marked.old.items (flat_map names_in (reacting_expression event.now (behaviour_of d.now.behaviour))) }
{
    match clause_on(event, d) {
        Some(clause) => mark_names(typed, marked, &clause.expr),
        None => {}
    }
}

/// Marks what is named in the clauses for an event, where nothing is marked.
pub(crate) fn mark_clauses(typed: &Typed, event: &Text, marked: &mut Vec<bool>)
    requires { marked.old.items ≡ replicate (length typed.now.program.decls) false }
    ensures { AreNamed (program_tree_of typed.now.program) (clause_expressions event.now (program_tree_of typed.now.program).decls) marked.new.items }
{
    for d in typed.program().decls.as_slice() {
        mark_clause(typed, event, marked, d);
    }
}

/// Marks what is named in the outputs, where that in the clauses for an event is marked.
pub(crate) fn mark_outputs(typed: &Typed, event: &Text, marked: &mut Vec<bool>)
    requires { AreNamed (program_tree_of typed.now.program) (clause_expressions event.now (program_tree_of typed.now.program).decls) marked.old.items }
    ensures { AreNamed (program_tree_of typed.now.program) (first_needed (program_tree_of typed.now.program) event.now) marked.new.items }
{
    for o in typed.program().outputs.as_slice() {
        mark_names(typed, marked, &o.expr);
    }
}

fn mark_own(typed: &Typed, marked: &mut Vec<bool>, is_marked: bool, behaviour: &Behaviour)
    requires { length marked.old.items ≡ length typed.now.program.decls }
    ensures long { length marked.new.items ≡ length marked.old.items }
    ensures marks { marked.new.items ≡ fold (with_name (program_tree_of typed.now.program)) marked.old.items (if is_marked then own_names (behaviour_of behaviour.now) else []) }
{
    match behaviour {
        Behaviour::Plain(e) if is_marked => mark_names(typed, marked, e),
        _ => {}
    }
}

/// Marks what is named in the non-reactive definitions that are marked, where that in clauses and outputs is marked. The
/// order is gone through from the back, so a definition comes behind all those that name it.
pub(crate) fn mark_plain(c: &Checked, event: u8, marked: &mut Vec<bool>)
    requires is_event { event < length c.now.typed.program.events }
    requires first { AreNamed (program_tree_of c.now.typed.program) (first_needed (program_tree_of c.now.typed.program) (event_name (program_tree_of c.now.typed.program) event)) marked.old.items }
    ensures { marked.new.items ≡ named_on (program_tree_of c.now.typed.program) (event_name (program_tree_of c.now.typed.program) event) }
{
    let typed = c.typed();
    let decls = typed.program().decls.as_slice();
    let order = c.order(event);
    for k in (0..order.len()).rev() {
        let i = order[k] as usize;
        let is_marked = marked[i];
        mark_own(typed, marked, is_marked, &decls[i].behaviour);
    }
}
