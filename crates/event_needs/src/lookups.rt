// The name of an event, and the clause of a definition for it.
ghost use Rattle.std.specs.Prelude.{◌≡◌, ◌<◌, length, map, option_map};
ghost use Rattle.std.specs.Option.{option_copied};
ghost use Rattle.frp_tree.specs.Tree.{behaviour_of, clause_of, program_tree_of};
ghost use Rattle.efrp_meaning.specs.Needs.{clause_for};
ghost use Rattle.efrp_types.specs.Numbers.{event_name};
ghost use Rattle.event_needs.specs.Needed.{reacting_clause};

use frp_tree::{Behaviour, Clause, Decl, Program, Text};

/// The name of the event with this number, which has to be one. Takes no memory.
pub fn event_name(program: &Program, event: u8) -> &Text
    requires { event < length program.now.events }
    ensures { result.now ≡ event_name (program_tree_of program.now) event }
{
    &program.events.as_slice()[event as usize].name
}

fn clause_for<'a>(event: &Text, clauses: &'a [Clause]) -> Option<&'a Clause>
    ensures { option_map clause_of (option_copied result) ≡ clause_for event.now (map clause_of clauses.now) }
{
    clauses.iter().find(|c| event.as_str() == c.event.as_str())
}

/// The clause of a definition for an event, where it reacts to it. Takes no memory.
pub fn clause_on<'a>(event: &Text, d: &'a Decl) -> Option<&'a Clause>
    ensures { option_map clause_of (option_copied result) ≡ reacting_clause event.now (behaviour_of d.now.behaviour) }
{
    match &d.behaviour {
        Behaviour::Reactive { init: _, clauses } => clause_for(event, clauses.as_slice()),
        _ => None,
    }
}
