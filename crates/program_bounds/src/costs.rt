// What an event costs: the definitions that it needs, and the outputs.
ghost use Rattle.std.specs.Prelude.{◌≡◌, ◌+◌, ◌<◌, ◌≤◌, ◌^◌, IfOk, length, sum_by};
ghost use Rattle.frp_tree.specs.Limits.{nodes, nodes_in};
ghost use Rattle.frp_tree.specs.Tree.{OutputTree, behaviour_of, program_tree_of, tree_of};
ghost use Rattle.efrp_meaning.specs.Bounds.{result_bytes, weight};
ghost use Rattle.efrp_meaning.specs.Types.{IsTypedAs};
ghost use Rattle.efrp_types.specs.Numbers.{event_name};
ghost use Rattle.event_needs.specs.Needed.{named_on, reacting_clause};
ghost use Rattle.program_bounds.specs.Bounded.{AreCosts};
ghost use Rattle.program_bounds.specs.Costing.{decl_cost, of_clause, own_cost};
ghost use Rattle.program_bounds.specs.Weighing.{AreTyped};

use crate::weights::{result_bytes, weight};
use causality::Checked;
use efrp_types::Typed;
use event_needs::{clause_on, event_name, named};
use frp_tree::{Behaviour, Decl, Expr, Text};
use std::alloc::{AllocError, Global};

/// What an event costs: the weight of all that it needs, in words or steps; and its bytes of scratch, those of the results of
/// all that it needs.
#[derive(Clone, Copy, Debug, PartialEq, Eq)]
pub struct Costs {
    pub body: u32,
    pub scratch: u32,
}

const NONE: Costs = Costs {
    body: 0,
    scratch: 0,
};

// An input that an event needs is read once, by a copy of one byte.
const INPUT: Costs = Costs {
    body: 6,
    scratch: 1,
};

fn together(a: Costs, b: Costs) -> Costs
    requires body { a.body + b.body < 2 ^ 32 }
    requires scratch { a.scratch + b.scratch < 2 ^ 32 }
    ensures body { result.body ≡ a.body + b.body }
    ensures scratch { result.scratch ≡ a.scratch + b.scratch }
{
    Costs {
        body: a.body + b.body,
        scratch: a.scratch + b.scratch,
    }
}

fn of_expression(typed: &Typed, e: &Expr) -> Costs
    requires typed { AreTyped (program_tree_of typed.now.program) (tree_of e.now) }
    requires few { nodes (tree_of e.now) ≤ 4096 }
    ensures body { result.body ≡ weight (program_tree_of typed.now.program) (tree_of e.now) }
    ensures scratch { result.scratch ≡ result_bytes (program_tree_of typed.now.program) (tree_of e.now) }
{
    Costs {
        body: weight(typed, e),
        scratch: result_bytes(typed, e),
    }
}

// What a definition costs by its clause for an event.
fn of_clause(typed: &Typed, event: &Text, d: &Decl) -> Costs
    requires typed { IsTypedAs (program_tree_of typed.now.program) d.now.ty (behaviour_of d.now.behaviour) }
    requires few { nodes_in (behaviour_of d.now.behaviour) ≤ 4096 }
    ensures body { result.body ≡ of_clause (weight (program_tree_of typed.now.program)) (reacting_clause event.now (behaviour_of d.now.behaviour)) }
    ensures scratch { result.scratch ≡ of_clause (result_bytes (program_tree_of typed.now.program)) (reacting_clause event.now (behaviour_of d.now.behaviour)) }
{
    match clause_on(event, d) {
        Some(clause) => of_expression(typed, &clause.expr),
        None => NONE,
    }
}

// What a definition costs on an event: by its clause for it; and by its own expression, or as an input, where it is named in
// what the event needs.
fn of_definition(typed: &Typed, event: &Text, d: &Decl, is_named: bool) -> Costs
    requires typed { IsTypedAs (program_tree_of typed.now.program) d.now.ty (behaviour_of d.now.behaviour) }
    requires few { nodes_in (behaviour_of d.now.behaviour) ≤ 4096 }
    ensures body { result.body ≡ own_cost (weight (program_tree_of typed.now.program)) 6 event.now is_named (behaviour_of d.now.behaviour) }
    ensures scratch { result.scratch ≡ own_cost (result_bytes (program_tree_of typed.now.program)) 1 event.now is_named (behaviour_of d.now.behaviour) }
{
    match &d.behaviour {
        Behaviour::Plain(e) if is_named => of_expression(typed, e),
        Behaviour::Input(_) if is_named => INPUT,
        Behaviour::Plain(_) | Behaviour::Input(_) | Behaviour::Table(_) => NONE,
        Behaviour::Reactive {
            init: _,
            clauses: _,
        } => of_clause(typed, event, d),
    }
}

fn of_definitions(typed: &Typed, event: &Text, named: &[bool]) -> Costs
    requires { named.now ≡ named_on (program_tree_of typed.now.program) event.now }
    ensures body { result.body ≡ sum_by (decl_cost (program_tree_of typed.now.program) (weight (program_tree_of typed.now.program)) 6 event.now) (program_tree_of typed.now.program).decls }
    ensures scratch { result.scratch ≡ sum_by (decl_cost (program_tree_of typed.now.program) (result_bytes (program_tree_of typed.now.program)) 1 event.now) (program_tree_of typed.now.program).decls }
{
    let decls = typed.program().decls.as_slice();
    let mut costs = NONE;
    for i in 0..decls.len() {
        let own = of_definition(typed, event, &decls[i], named[i]);
        costs = together(costs, own);
    }
    costs
}

fn of_outputs(typed: &Typed) -> Costs
    ensures body { result.body ≡ sum_by (λ (o : OutputTree). weight (program_tree_of typed.now.program) o.expr) (program_tree_of typed.now.program).outputs }
    ensures scratch { result.scratch ≡ sum_by (λ (o : OutputTree). result_bytes (program_tree_of typed.now.program) o.expr) (program_tree_of typed.now.program).outputs }
{
    let mut costs = NONE;
    for output in typed.program().outputs.as_slice() {
        let own = of_expression(typed, &output.expr);
        costs = together(costs, own);
    }
    costs
}

/// What the event with this number costs, which has to be one. An `Err` is out of memory. The time is in proportion to the
/// program's nodes, beside the look-up of each name and the type of each operand.
pub fn costs_of(alloc: Global, c: &Checked, event: u8) -> Result<Costs, AllocError>
    requires { event < length c.now.typed.program.events }
    ensures { IfOk result (AreCosts (program_tree_of c.now.typed.program) (event_name (program_tree_of c.now.typed.program) event)) }
{
    let typed = c.typed();
    let name = event_name(typed.program(), event);
    let marked = named(alloc, c, event)?;
    let definitions = of_definitions(typed, name, marked.as_slice());
    let outputs = of_outputs(typed);
    Ok(together(definitions, outputs))
}
