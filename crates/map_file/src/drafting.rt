// How the entry of one line becomes part of the map that is read.
ghost use Rattle.std.specs.Prelude.{◌≡◌, ◌&&◌, IfOk, OnOk, nat_lt, length};
ghost use Rattle.std.specs.List.{list_all};
ghost use Rattle.map_file.specs.Drafts.{Added, admits, empty_draft, events_differ, has_room_for_event, has_room_for_state, is_new_sample, lowest_with, samples_differ, states_differ, with_entry};
ghost use Rattle.map_file.specs.Entries.{IsEntry};
ghost use Rattle.map_file.specs.MapRules.{names_event};

use crate::drafts::Draft;
use crate::entries::{Entry, Report, Section};
use crate::maps::{Map, MapEvent, MapSample, MapState};
use frp_tree::List;
use std::alloc::{AllocError, Global};

/// The greatest numbers of events, states and outputs of a map.
const MOST_EVENTS: usize = 11;

const MOST_STATES: usize = 128;

const MOST_OUTPUTS: usize = 5;

fn events_differ(a: &MapEvent, b: &MapEvent) -> bool
    ensures { result ≡ events_differ a.now b.now }
{
    a.name.as_str() != b.name.as_str() && a.source.number() != b.source.number()
}

fn states_differ(a: &MapState, b: &MapState) -> bool
    ensures { result ≡ states_differ a.now b.now }
{
    a.name.as_str() != b.name.as_str()
}

fn samples_differ(a: &MapSample, b: &MapSample) -> bool
    ensures { result ≡ samples_differ a.now b.now }
{
    !(a.event.as_str() == b.event.as_str() && a.input.as_str() == b.input.as_str())
}

// Whether no event before has the event's name or its source.
fn is_new_event(events: &[MapEvent], event: &MapEvent) -> bool
    ensures { result ≡ list_all (λ other. events_differ other event.now) events.now }
{
    events.iter().all(|other| events_differ(other, event))
}

// Whether no state before has the state's name.
fn is_new_state(states: &[MapState], state: &MapState) -> bool
    ensures { result ≡ list_all (λ other. states_differ other state.now) states.now }
{
    states.iter().all(|other| states_differ(other, state))
}

// Whether the name is that of one of the events.
fn names_event(events: &[MapEvent], name: &str) -> bool
    ensures { result ≡ names_event events.now name.now }
{
    events.iter().any(|event| event.name.as_str() == name)
}

// Whether no sample before is of the same event and input.
fn is_new_pair(samples: &[MapSample], sample: &MapSample) -> bool
    ensures { result ≡ list_all (λ other. samples_differ other sample.now) samples.now }
{
    samples.iter().all(|other| samples_differ(other, sample))
}

// Whether the sample is of one of the events, and none before is of the same event and input.
fn is_new_sample(events: &[MapEvent], samples: &[MapSample], sample: &MapSample) -> bool
    ensures { result ≡ is_new_sample events.now samples.now sample.now }
{
    names_event(events, sample.event.as_str()) && is_new_pair(samples, sample)
}

// Whether there may be one more event, and none before has its name or its source.
fn has_room_for_event(events: &[MapEvent], event: &MapEvent) -> bool
    ensures { result ≡ has_room_for_event events.now event.now }
{
    events.len() < MOST_EVENTS && is_new_event(events, event)
}

// Whether there may be one more state, and none before has its name.
fn has_room_for_state(states: &[MapState], state: &MapState) -> bool
    ensures { result ≡ has_room_for_state states.now state.now }
{
    states.len() < MOST_STATES && is_new_state(states, state)
}

/// The draft before the first line.
pub fn empty(alloc: Global) -> Draft
    ensures { result ≡ empty_draft }
{
    let map = Map {
        events: List::new(alloc),
        states: List::new(alloc),
        outputs: List::new(alloc),
        samples: List::new(alloc),
        ready: 0,
        regs: List::new(alloc),
        depth: 0,
        ram: 0,
        words: 0,
        settle: 0,
    };
    Draft {
        section: Section::Start,
        map,
        lowest: 0,
    }
}

// Whether the entry breaks no rule after those before it.
fn admits(draft: &Draft, entry: &Entry) -> bool
    ensures { result ≡ admits draft.now entry.now }
{
    match entry {
        Entry::Event(event) => has_room_for_event(draft.map.events.as_slice(), event),
        Entry::State(state) => has_room_for_state(draft.map.states.as_slice(), state),
        Entry::Output(_) => draft.map.outputs.len() < MOST_OUTPUTS,
        Entry::Sample(sample) => {
            let map = &draft.map;
            is_new_sample(map.events.as_slice(), map.samples.as_slice(), sample)
        }
        Entry::Regs(range) => draft.lowest <= range.from,
        Entry::Head | Entry::Ready(_) | Entry::Report(_) => true,
    }
}

// Puts what the entry states into the map. An `Err` is out of memory.
fn put(map: &mut Map, entry: Entry) -> Result<(), AllocError>
    ensures { OnOk result (map.new ≡ with_entry map.old entry) }
{
    match entry {
        Entry::Head => {}
        Entry::Event(event) => map.events.push(event)?,
        Entry::State(state) => map.states.push(state)?,
        Entry::Output(port) => map.outputs.push(port)?,
        Entry::Sample(sample) => map.samples.push(sample)?,
        Entry::Ready(address) => map.ready = address,
        Entry::Regs(range) => map.regs.push(range)?,
        Entry::Report(report) => {
            map.depth = report.depth;
            map.ram = report.ram;
            map.words = report.words;
            map.settle = report.settle;
        }
    }
    Ok(())
}

// The lowest address of a range after this entry.
fn lowest_after(lowest: u16, entry: &Entry) -> u16
    requires { IsEntry entry.now }
    ensures { result ≡ lowest_with lowest entry.now }
{
    match entry {
        Entry::Regs(range) => range.to + 2,
        _ => lowest,
    }
}

/// Adds the entry, where it may stand next, and says whether it may. An `Err` is out of memory.
pub fn add(draft: &mut Draft, entry: Entry) -> Result<bool, AllocError>
    requires { IsEntry entry }
    ensures { IfOk result (λ done. Added draft.old entry done draft.new) }
{
    let Some(section) = draft.section.after(&entry) else {
        return Ok(false);
    };
    if !admits(draft, &entry) {
        return Ok(false);
    }
    draft.section = section;
    draft.lowest = lowest_after(draft.lowest, &entry);
    put(&mut draft.map, entry)?;
    Ok(true)
}
