// States, reactions, and the two public calls.
ghost use Rattle.std.specs.Prelude.{◌≡◌, ◌<◌, Some, length, IfOk};
ghost use Rattle.frp_tree.specs.Tree.{program_tree_of};
ghost use Rattle.efrp_meaning.specs.Decls.{inputs_of};
ghost use Rattle.efrp_meaning.specs.Meaning.{initial_state, react};
ghost use Rattle.efrp_types.specs.Numbers.{event_name};
ghost use Rattle.reaction_model.specs.Reactions.{IsReactionBy};
ghost use Rattle.reaction_model.specs.States.{HasTypes, numbers_of};

use crate::lookups::event_name;
use crate::passes::{first_states, new_states, port_bytes, values_on};
use causality::Checked;
use efrp_types::Typed;
use frp_tree::{List, Text, Value};
use std::alloc::{AllocError, Global};

/// A value for each reactive definition, in declaration order.
#[derive(Debug, Drop)]
pub struct State {
    pub values: List<Value>,
}

/// A new state, and a byte for each output, in order.
#[derive(Debug, Drop)]
pub struct Reaction {
    pub state: State,
    pub ports: List<u8>,
}

/// The state in which a program begins: the `init` constant of each reactive definition. An `Err` is out of memory.
pub fn initial(alloc: Global, c: &Checked) -> Result<State, AllocError>
    ensures { IfOk result (λ s. (initial_state (program_tree_of c.now.typed.program) ≡ Some (numbers_of s.values)) × HasTypes (program_tree_of c.now.typed.program) s.values) }
{
    Ok(State {
        values: first_states(alloc, c.typed())?,
    })
}

/// The reaction to an event whose values stand at the numbers of the definitions.
fn reaction_of(
    alloc: Global,
    typed: &Typed,
    event: &Text,
    values: &[Value],
) -> Result<Reaction, AllocError>
    ensures { IfOk result (λ r. IsReactionBy (program_tree_of typed.now.program) event.now values.now r) }
{
    let state = State {
        values: new_states(alloc, typed, event, values)?,
    };
    let ports = port_bytes(alloc, typed, values)?;
    Ok(Reaction { state, ports })
}

/// The reaction to the event with this number, from a state that has the types of the program, with a byte for each input
/// in declaration order. An `Err` is out of memory. The time is in proportion to the program's length.
pub fn react(
    alloc: Global,
    c: &Checked,
    s: &State,
    samples: &[u8],
    event: u8,
) -> Result<Reaction, AllocError>
    requires has_types { HasTypes (program_tree_of c.now.typed.program) s.now.values }
    requires sampled { length samples.now ≡ length (inputs_of (program_tree_of c.now.typed.program)) }
    requires is_event { event < length c.now.typed.program.events }
    ensures { IfOk result (λ r. (react (program_tree_of c.now.typed.program) (numbers_of s.now.values) samples.now (event_name (program_tree_of c.now.typed.program) event) ≡ Some (record { state = numbers_of r.state.values; ports = r.ports })) × HasTypes (program_tree_of c.now.typed.program) r.state.values) }
{
    let typed = c.typed();
    let name = event_name(typed.program(), event);
    let states = s.values.as_slice();
    let values = values_on(alloc, typed, name, c.order(event), states, samples)?;
    reaction_of(alloc, typed, name, values.as_slice())
}
