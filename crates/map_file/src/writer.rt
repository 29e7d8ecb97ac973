// The text of a map is written line by line.
ghost use Rattle.std.specs.Prelude.{◌≡◌, ◌++◌, ◌<◌, ◌∷◌, [], IfOk, OnOk, string_bytes, codes};
ghost use Rattle.text_parts.specs.Digits.{hex4};
ghost use Rattle.std.specs.List.{flat_map, AllByRecursion};
ghost use Rattle.map_file.specs.MapText.{
  map_text,
  line,
  event_line,
  state_line,
  output_line,
  sample_line,
  range_line,
  report_line,
};
ghost use Rattle.map_file.specs.MapRules.{IsMap, IsData, IsState, RangesRise};

use crate::maps::{Map, MapEvent, MapSample, MapState, Range};
use frp_tree::{List, Ty};
use pic_isa::port_name;
use std::alloc::{AllocError, Global};

/// The text of a map: its kind and version, a line for each event, state, output and sample, the ready address, a line
/// for each range of registers, and the report. Each line ends in LF. Code addresses are four upper-case
/// hexadecimal digits, data addresses three, all other numbers decimal. An `Err` is out of memory.
pub fn write(alloc: Global, map: &Map) -> Result<List<u8>, AllocError>
    requires { IsMap map.now }
    ensures { IfOk result (λ bytes. bytes ≡ map_text map.now) }
{
    let mut text = String::new(alloc);
    writeln!(text, "efrp map 1")?;
    write_events(&mut text, map.events.as_slice())?;
    write_states(&mut text, map.states.as_slice())?;
    write_outputs(&mut text, map.outputs.as_slice())?;
    write_samples(&mut text, map.samples.as_slice())?;
    write_ready(&mut text, map.ready)?;
    write_ranges(&mut text, map.regs.as_slice())?;
    write_report(&mut text, map)?;
    Ok(List::from_vec(text.into_bytes()))
}

fn write_events(text: &mut String, events: &[MapEvent]) -> Result<(), AllocError>
    ensures { OnOk result (string_bytes text.new ≡ string_bytes text.old ++ flat_map event_line events.now) }
{
    for event in events {
        write_event(text, event)?;
    }
    Ok(())
}

fn write_event(text: &mut String, event: &MapEvent) -> Result<(), AllocError>
    ensures { OnOk result (string_bytes text.new ≡ string_bytes text.old ++ event_line event.now) }
{
    let name = event.name.as_str();
    let source = event.source.name();
    let (priority, open, commit) = (event.priority, event.open, event.commit);
    writeln!(
        text,
        "event {name} {source} {priority} open {open:04X} commit {commit:04X}"
    )
}

fn write_states(text: &mut String, states: &[MapState]) -> Result<(), AllocError>
    requires { AllByRecursion IsState states.now }
    ensures { OnOk result (string_bytes text.new ≡ string_bytes text.old ++ flat_map state_line states.now) }
{
    for state in states {
        write_state(text, state)?;
    }
    Ok(())
}

#[tactic(auto, using(text_parts::proofs::DigitLaws::hex3_written))]
fn write_state(text: &mut String, state: &MapState) -> Result<(), AllocError>
    requires { IsState state.now }
    ensures { OnOk result (string_bytes text.new ≡ string_bytes text.old ++ state_line state.now) }
{
    let name = state.name.as_str();
    let ty = state.ty.name();
    let (low, high) = (state.low, state.high);
    match state.ty {
        Ty::Bool | Ty::U8 => writeln!(text, "state {name} {ty} {low:03X}"),
        Ty::U16 => writeln!(text, "state {name} {ty} {low:03X} {high:03X}"),
    }
}

fn write_outputs(text: &mut String, outputs: &[u8]) -> Result<(), AllocError>
    requires { AllByRecursion (λ port. port < 5) outputs.now }
    ensures { OnOk result (string_bytes text.new ≡ string_bytes text.old ++ flat_map output_line outputs.now) }
{
    for port in outputs {
        write_output(text, *port)?;
    }
    Ok(())
}

fn write_output(text: &mut String, port: u8) -> Result<(), AllocError>
    requires { port < 5 }
    ensures { OnOk result (string_bytes text.new ≡ string_bytes text.old ++ output_line port) }
{
    writeln!(text, "output {}", port_name(port))
}

fn write_samples(text: &mut String, samples: &[MapSample]) -> Result<(), AllocError>
    ensures { OnOk result (string_bytes text.new ≡ string_bytes text.old ++ flat_map sample_line samples.now) }
{
    for sample in samples {
        write_sample(text, sample)?;
    }
    Ok(())
}

fn write_sample(text: &mut String, sample: &MapSample) -> Result<(), AllocError>
    ensures { OnOk result (string_bytes text.new ≡ string_bytes text.old ++ sample_line sample.now) }
{
    let event = sample.event.as_str();
    let input = sample.input.as_str();
    let at = sample.at;
    writeln!(text, "sample {event} {input} {at:04X}")
}

fn write_ready(text: &mut String, ready: u16) -> Result<(), AllocError>
    ensures { OnOk result (
        string_bytes text.new ≡ string_bytes text.old ++ line (codes "ready" ∷ hex4 ready ∷ [])
        ) }
{
    writeln!(text, "ready {ready:04X}")
}

fn write_ranges(text: &mut String, ranges: &[Range]) -> Result<(), AllocError>
    requires { RangesRise 0 ranges.now }
    ensures { OnOk result (string_bytes text.new ≡ string_bytes text.old ++ flat_map range_line ranges.now) }
{
    for range in ranges {
        write_range(text, *range)?;
    }
    Ok(())
}

fn write_range(text: &mut String, range: Range) -> Result<(), AllocError>
    requires first { IsData range.from }
    requires last { IsData range.to }
    ensures { OnOk result (string_bytes text.new ≡ string_bytes text.old ++ range_line range) }
{
    let Range { from, to } = range;
    writeln!(text, "regs {from:03X}-{to:03X}")
}

fn write_report(text: &mut String, map: &Map) -> Result<(), AllocError>
    ensures { OnOk result (string_bytes text.new ≡ string_bytes text.old ++ report_line map.now) }
{
    writeln!(
        text,
        "report depth {} ram {} words {} settle {}",
        map.depth, map.ram, map.words, map.settle
    )
}
