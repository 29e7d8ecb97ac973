// What a line states.
ghost use Rattle.std.specs.Prelude.{◌≡◌, IfOk, position};
ghost use Rattle.std.specs.Option.{option_copied};
ghost use Rattle.std.specs.Str.{bytes_eq};
ghost use Rattle.frp_tree.specs.declared.syntax.Event.{Event as AnyEvent};
ghost use Rattle.frp_tree.specs.Tree.{program_tree_of};
ghost use Rattle.event_file.specs.Events.{has_no_outer_space};
ghost use Rattle.event_file.specs.Parts.{States, is_other};

use crate::fields::{are_samples, samples_of};
use crate::occurrences::Occurrence;
use efrp_types::Typed;
use frp_tree::Event;
use std::alloc::{AllocError, Global};
use text_parts::next_field;

// Whether there is a byte, and it is no space.
fn is_other(byte: Option<&u8>) -> bool
    ensures { result ≡ is_other (option_copied byte.entry) }
{
    match byte {
        Some(byte) => *byte != b' ',
        None => false,
    }
}

// Whether neither the first nor the last byte is a space.
#[tactic(auto, using(crate::proofs::SpaceFacts::no_outer_space))]
fn has_no_outer_space(text: &[u8]) -> bool
    ensures { result ≡ has_no_outer_space text.now }
{
    is_other(text.first()) && is_other(text.last())
}

// The number of the first event of this name.
fn event_place(events: &[Event], name: &[u8]) -> Option<usize>
    ensures { result ≡ position (λ (e : AnyEvent). bytes_eq name.now e.name) events.now }
{
    events
        .iter()
        .position(|e| name == e.name.as_str().as_bytes())
}

/// What a line states. None exactly where it states no event of the program. An `Err` is out of memory.
pub(crate) fn occurrence_in(
    alloc: Global,
    t: &Typed,
    text: &[u8],
) -> Result<Option<Occurrence>, AllocError>
    ensures { IfOk result (States (program_tree_of t.now.program) text.now) }
{
    let Some((name, fields)) = next_field(text) else {
        return Ok(None);
    };
    let program = t.program();
    let decls = program.decls.as_slice();
    let Some(event) = event_place(program.events.as_slice(), name) else {
        return Ok(None);
    };
    if !has_no_outer_space(text) || !are_samples(decls, fields) {
        return Ok(None);
    }
    match samples_of(alloc, decls, fields)? {
        Some(samples) => Ok(Some(Occurrence {
            event: event as u8,
            samples,
        })),
        None => Ok(None),
    }
}
