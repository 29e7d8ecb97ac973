// The command `model`.
ghost use Rattle.std.specs.Prelude.{◌≡◌, ◌≤◌, Some, IfOk, length, map, string_bytes};
ghost use Rattle.std.specs.List.{AllByRecursion};
ghost use Rattle.edge_io.specs.declared.outside.TheConstants.{LONGEST_FILE};
ghost use Rattle.edge_io.specs.Files.{KeepsFiles};
ghost use Rattle.frp_tree.specs.Tree.{ProgramTree, program_tree_of};
ghost use Rattle.event_file.specs.Model.{model_text};
ghost use Rattle.event_file.specs.Reads.{IsFound, occurrence_of};
ghost use Rattle.command_parts.specs.Endings.{Gives};
ghost use Rattle.frp_tool.specs.Lines.{unknown_line};
ghost use Rattle.frp_tool.specs.Models.{
  AreModelTexts,
  IsFirstModelFault,
  IsModel,
  ModelFaultCause,
  ModelWorks,
  model_fault_status,
  model_fault_line,
};

use crate::source::program_in;
use causality::Checked;
use command_parts::{Halt, REFUSED, input};
use edge_io::Files;
use event_file::{EventsFault, Occurrence, add_init, add_reaction, read_events};
use frp_tree::{List as Bytes, Text};
use reaction_model::{initial, react};
use std::alloc::{AllocError, Global};

/// The bytes of the two files that `model` reads.
#[derive(Debug, Drop)]
struct SourceAndEvents {
    source: Bytes<u8>,
    events: Bytes<u8>,
}

// The bytes of both files, read in order.
fn read_both<F: Files>(
    alloc: Global,
    source: &Text,
    events: &Text,
    files: &mut F,
) -> Result<SourceAndEvents, Halt>
    ensures gives { Gives (λ both. AreModelTexts (record { source = source.now; events = events.now }) (F.seen files.old) (record { source = both.source; events = both.events }))
        (ModelFaultCause (record { source = source.now; events = events.now }) (F.seen files.old) (F.seen files.new)) model_fault_status model_fault_line result }
    ensures unchanged { KeepsFiles (F.seen files.old) (F.seen files.new) }
{
    Ok(SourceAndEvents {
        source: input(alloc, source, files)?,
        events: input(alloc, events, files)?,
    })
}

// The text of the serial run of these events.
fn text_of(alloc: Global, checked: &Checked, events: &[Occurrence]) -> Result<String, AllocError>
    requires { AllByRecursion (IsFound (program_tree_of checked.now.typed.program)) events.now }
    ensures { IfOk result (λ text. model_text (program_tree_of checked.now.typed.program) (map (occurrence_of (program_tree_of checked.now.typed.program)) events.now) ≡ Some (string_bytes text)) }
{
    let mut text = String::new(alloc);
    let mut state = initial(alloc, checked)?;
    add_init(&mut text, checked.typed(), state.values.as_slice())?;
    for o in events {
        let reaction = react(alloc, checked, &state, o.samples.as_slice(), o.event)?;
        add_reaction(
            &mut text,
            checked.typed(),
            o.event,
            reaction.state.values.as_slice(),
            reaction.ports.as_slice(),
        )?;
        state = reaction.state;
    }
    Ok(text)
}

// The line of an events file's line that states no event.
fn unknown_line(alloc: Global, line: u32) -> Result<String, AllocError>
    ensures { IfOk result (λ text. string_bytes text ≡ unknown_line line) }
{
    format!(in alloc; "refused: events {line}\n")
}

// The text of the model of these bytes, the source being tested first.
fn model_in(alloc: Global, both: &SourceAndEvents) -> Result<String, Halt>
    requires { length both.now.events ≤ LONGEST_FILE }
    ensures { Gives (λ text. (p : ProgramTree) × IsModel (record { source = both.now.source; events = both.now.events }) p (string_bytes text))
        (IsFirstModelFault (record { source = both.now.source; events = both.now.events })) model_fault_status model_fault_line result }
{
    let checked = program_in(alloc, both.source.as_slice())?;
    match read_events(alloc, checked.typed(), both.events.as_slice()) {
        Ok(events) => Ok(text_of(alloc, &checked, events.as_slice())?),
        Err(EventsFault::Unknown(line)) => Err(Halt::Said {
            status: REFUSED,
            line: unknown_line(alloc, line)?,
        }),
        Err(EventsFault::TooMany) => Err(Halt::Said {
            status: REFUSED,
            line: String::from_str(alloc, "refused: events many\n")?,
        }),
        Err(EventsFault::Memory) => Err(Halt::Memory),
    }
}

/// The work of `model SRC EVENTS`: reads both, and gives the text of the serial run.
pub fn model<F: Files>(
    alloc: Global,
    source: &Text,
    events: &Text,
    files: &mut F,
) -> Result<Option<String>, Halt>
    ensures works { ModelWorks (record { source = source.now; events = events.now }) (F.seen files.old) (F.seen files.new) result }
    ensures unchanged { KeepsFiles (F.seen files.old) (F.seen files.new) }
{
    let both = read_both(alloc, source, events, files)?;
    let text = model_in(alloc, &both)?;
    Ok(Some(text))
}
