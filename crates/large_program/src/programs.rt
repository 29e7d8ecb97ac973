// The large program of a number.
ghost use Rattle.std.specs.Prelude.{◌≡◌, ◌<◌, ◌∷◌, [], IfOk, map};
ghost use Rattle.frp_tree.specs.Tree.{decl_of, output_of, program_tree_of};
ghost use Rattle.large_program.specs.LargePrograms.{definitions_below, event_on, large_program, port_shown};

use crate::clauses::definition;
use crate::draws::Draws;
use crate::expressions::{event_name, value};
use frp_tree::{Decl, Event, List, Output, Program, Text};
use pic_isa::Source;
use std::alloc::{AllocError, Global};

/// How many definitions there are.
const DEFINITIONS: u16 = 12;

// The event on a source.
fn event_on(alloc: Global, source: Source) -> Result<Event, AllocError>
    ensures { IfOk result (λ e. e ≡ event_on source) }
{
    let number = source.number();
    Ok(Event {
        name: event_name(alloc, u32::from(number))?,
        source: Text::new(alloc, source.name())?,
        priority: 1 + u16::from(number % 8),
    })
}

fn events(alloc: Global, sources: &[Source]) -> Result<List<Event>, AllocError>
    ensures { IfOk result (λ es. es ≡ map event_on sources.now) }
{
    let mut events = List::new(alloc);
    for source in sources {
        events.push(event_on(alloc, *source)?)?;
    }
    Ok(events)
}

fn definitions(alloc: Global, n: u32) -> Result<List<Decl>, AllocError>
    ensures { IfOk result (λ ds. map decl_of ds ≡ definitions_below n 12) }
{
    let mut draws = Draws { number: n };
    let mut decls = List::new(alloc);
    for i in 0..DEFINITIONS {
        decls.push(definition(alloc, i, &mut draws)?)?;
    }
    Ok(decls)
}

fn outputs(alloc: Global) -> Result<List<Output>, AllocError>
    ensures { IfOk result (λ os. map output_of os ≡ port_shown ∷ []) }
{
    let mut outputs = List::new(alloc);
    outputs.push(Output {
        port: Text::new(alloc, "PORTB")?,
        expr: value(alloc, 0)?,
    })?;
    Ok(outputs)
}

/// The large program of a number: eleven events of eight priorities, twelve definitions that become what the number's draws say,
/// each on two events, and one output. An `Err` is out of memory.
pub fn large_program(alloc: Global, n: u32) -> Result<Program, AllocError>
    ensures { IfOk result (λ p. program_tree_of p ≡ large_program n) }
{
    Ok(Program {
        events: events(alloc, &Source::ALL)?,
        setups: List::new(alloc),
        decls: definitions(alloc, n)?,
        outputs: outputs(alloc)?,
    })
}
