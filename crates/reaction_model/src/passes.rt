// The passes of a reaction over the definitions and the outputs.
ghost use Rattle.std.specs.Prelude.{◌≡◌, Some, length, map, IfOk};
ghost use Rattle.frp_tree.specs.Tree.{OutputTree, program_tree_of};
ghost use Rattle.efrp_meaning.specs.Causal.{IsCausalOn};
ghost use Rattle.efrp_meaning.specs.Meaning.{Samples, State as Numbers, initial_state, new_state};
ghost use Rattle.efrp_meaning.specs.States.{AreSamples, IsState};
ghost use Rattle.causality.specs.Orders.{IsOrder};
ghost use Rattle.reaction_model.specs.Stands.{AreGiven, AreValues};
ghost use Rattle.reaction_model.specs.States.{HasTypes, numbers_of};
ghost use Rattle.reaction_model.specs.Values.{byte_of, sample_or_nothing, value_of};

use crate::evaluate::evaluate;
use crate::lookups::{NOTHING, at};
use crate::rules::{add_first_state, add_new_state, byte_of, settled_by};
use efrp_types::Typed;
use frp_tree::{Behaviour, List, Text, Value};
use std::alloc::{AllocError, Global};

/// The first states, in declaration order.
pub fn first_states(alloc: Global, typed: &Typed) -> Result<List<Value>, AllocError>
    ensures { IfOk result (λ v. (initial_state (program_tree_of typed.now.program) ≡ Some (numbers_of v)) × HasTypes (program_tree_of typed.now.program) v) }
{
    let mut states = List::new(alloc);
    for d in typed.program().decls.as_slice() {
        add_first_state(&mut states, &d.behaviour)?;
    }
    Ok(states)
}

fn sample(samples: &[u8], n: usize) -> Value
    ensures { result ≡ sample_or_nothing samples.now n }
{
    match samples.get(n) {
        Some(sample) => Value::U8(*sample),
        None => NOTHING,
    }
}

/// For each definition, at its number, its old state or what it reads, and nothing for one that is neither reactive nor
/// an input.
fn given(
    alloc: Global,
    typed: &Typed,
    states: &[Value],
    samples: &[u8],
) -> Result<Vec<Value>, AllocError>
    requires has_types { HasTypes (program_tree_of typed.now.program) states.now }
    requires are_samples { AreSamples (program_tree_of typed.now.program) samples.now }
    ensures { IfOk result (λ v. (length v.items ≡ length typed.now.program.decls) × AreGiven (program_tree_of typed.now.program) (numbers_of states.now) samples.now v.items) }
{
    let mut values = Vec::new(alloc);
    let mut state = 0;
    let mut input = 0;
    for d in typed.program().decls.as_slice() {
        match &d.behaviour {
            Behaviour::Reactive { .. } => {
                values.push(at(states, state))?;
                state += 1;
            }
            Behaviour::Input(_) => {
                values.push(sample(samples, input))?;
                input += 1;
            }
            _ => values.push(NOTHING)?,
        }
    }
    Ok(values)
}

/// Follows the rule of each definition, in this order.
fn settle(typed: &Typed, event: &Text, order: &[u8], values: &mut [Value])
    requires causal { IsCausalOn (program_tree_of typed.now.program) event.now }
    requires ordered { IsOrder (program_tree_of typed.now.program) event.now order.now }
    requires for_each { length values.old ≡ length typed.now.program.decls }
    ensures { (s : Numbers) (j : Samples) → IsState (program_tree_of typed.now.program) s → AreSamples (program_tree_of typed.now.program) j → AreGiven (program_tree_of typed.now.program) s j values.old → AreValues (program_tree_of typed.now.program) s j event.now values.new }
{
    let decls = typed.program().decls.as_slice();
    for i in order {
        let i = *i as usize;
        let value = settled_by(typed, values, values[i], event, &decls[i].behaviour);
        values[i] = value;
    }
}

/// For each definition, at its number, its value on an event, and nothing for a table.
pub fn values_on(
    alloc: Global,
    typed: &Typed,
    event: &Text,
    order: &[u8],
    states: &[Value],
    samples: &[u8],
) -> Result<Vec<Value>, AllocError>
    requires has_types { HasTypes (program_tree_of typed.now.program) states.now }
    requires are_samples { AreSamples (program_tree_of typed.now.program) samples.now }
    requires causal { IsCausalOn (program_tree_of typed.now.program) event.now }
    requires ordered { IsOrder (program_tree_of typed.now.program) event.now order.now }
    ensures { IfOk result (λ v. AreValues (program_tree_of typed.now.program) (numbers_of states.now) samples.now event.now v.items) }
{
    let mut values = given(alloc, typed, states, samples)?;
    settle(typed, event, order, values.as_mut_slice());
    Ok(values)
}

/// The new states, in declaration order, where the values of the event stand at the numbers of the definitions.
pub fn new_states(
    alloc: Global,
    typed: &Typed,
    event: &Text,
    values: &[Value],
) -> Result<List<Value>, AllocError>
    ensures { IfOk result (λ new. (s : Numbers) (j : Samples) → AreValues (program_tree_of typed.now.program) s j event.now values.now → (new_state (program_tree_of typed.now.program) s j event.now ≡ Some (numbers_of new)) × HasTypes (program_tree_of typed.now.program) new) }
{
    let mut states = List::new(alloc);
    let decls = typed.program().decls.as_slice();
    for i in 0..decls.len() {
        add_new_state(
            &mut states,
            typed,
            values,
            at(values, i),
            event,
            &decls[i].behaviour,
        )?;
    }
    Ok(states)
}

/// The bytes of the outputs, in order.
pub fn port_bytes(alloc: Global, typed: &Typed, values: &[Value]) -> Result<List<u8>, AllocError>
    ensures { IfOk result (λ v. v ≡ map (λ (o : OutputTree). byte_of (value_of (program_tree_of typed.now.program) values.now o.expr)) (program_tree_of typed.now.program).outputs) }
{
    let mut ports = List::new(alloc);
    for o in typed.program().outputs.as_slice() {
        ports.push(byte_of(evaluate(typed, values, &o.expr)))?;
    }
    Ok(ports)
}
