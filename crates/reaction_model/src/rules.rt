// What the rules of definitions give.
ghost use Rattle.std.specs.Prelude.{◌≡◌, [], ◌∷◌, ◌++◌, map, OnOk};
ghost use Rattle.frp_tree.specs.Tree.{behaviour_of, clause_of, program_tree_of};
ghost use Rattle.efrp_meaning.specs.Meaning.{clause_rule, rule_on};
ghost use Rattle.efrp_meaning.specs.Needs.{clause_for};
ghost use Rattle.reaction_model.specs.Values.{byte_of, first_values, new_values_by, settled_by};

use crate::evaluate::evaluate;
use crate::lookups::{clause_for, literal};
use efrp_types::Typed;
use frp_tree::{Behaviour, Clause, List, Text, Value};
use std::alloc::AllocError;

/// What stands at the number of a definition once its rule for an event is followed.
pub fn settled_by(
    typed: &Typed,
    values: &[Value],
    old: Value,
    event: &Text,
    behaviour: &Behaviour,
) -> Value
    ensures { result ≡ settled_by (program_tree_of typed.now.program) values.now old (rule_on event.now (behaviour_of behaviour.now)) }
{
    match behaviour {
        Behaviour::Plain(e) => evaluate(typed, values, e),
        Behaviour::Reactive { init: _, clauses } => match clause_for(event, clauses.as_slice()) {
            Some(clause) if !clause.later => evaluate(typed, values, &clause.expr),
            _ => old,
        },
        _ => old,
    }
}

fn new_value(
    typed: &Typed,
    values: &[Value],
    value: Value,
    event: &Text,
    clauses: &[Clause],
) -> Value
    ensures { new_values_by (program_tree_of typed.now.program) values.now value (clause_rule (clause_for event.now (map clause_of clauses.now))) ≡ result ∷ [] }
{
    match clause_for(event, clauses) {
        Some(clause) if clause.later => evaluate(typed, values, &clause.expr),
        _ => value,
    }
}

/// Adds the new state of a definition, where it is reactive.
pub fn add_new_state(
    states: &mut List<Value>,
    typed: &Typed,
    values: &[Value],
    value: Value,
    event: &Text,
    behaviour: &Behaviour,
) -> Result<(), AllocError>
    ensures { OnOk result (states.new ≡ states.old ++ new_values_by (program_tree_of typed.now.program) values.now value (rule_on event.now (behaviour_of behaviour.now))) }
{
    match behaviour {
        Behaviour::Reactive { init: _, clauses } => {
            states.push(new_value(typed, values, value, event, clauses.as_slice()))
        }
        _ => Ok(()),
    }
}

/// Adds the first state of a definition, where it is reactive.
pub fn add_first_state(states: &mut List<Value>, behaviour: &Behaviour) -> Result<(), AllocError>
    ensures { OnOk result (states.new ≡ states.old ++ first_values (behaviour_of behaviour.now)) }
{
    match behaviour {
        Behaviour::Reactive { init, clauses: _ } => states.push(literal(init)),
        _ => Ok(()),
    }
}

/// The byte of a value that is one.
pub fn byte_of(value: Value) -> u8
    ensures { result ≡ byte_of value }
{
    match value {
        Value::U8(n) => n,
        _ => 0,
    }
}
