// The lines of a trace.
ghost use Rattle.std.specs.Prelude.{◌≡◌, ◌++◌, ◌<◌, ◌∷◌, [], OnOk, string_bytes, codes};
ghost use Rattle.std.specs.Fmt.{decimal};
ghost use Rattle.std.specs.List.{AllByRecursion, flat_map};
ghost use Rattle.pic_isa.specs.declared.sources.Source.{Source as Sources};
ghost use Rattle.pic_isa.specs.Names.{name_of_port};
ghost use Rattle.pic_regs.specs.Arrivals.{set_of};
ghost use Rattle.pic_regs.specs.State.{registers_of};
ghost use Rattle.pic_machine.specs.Boundary.{Step, stepped};
ghost use Rattle.pic_machine.specs.State.{chip_of};
ghost use Rattle.pic_machine.specs.Dids.{is_run_at};
ghost use Rattle.pic_machine.specs.StateValues.{value_in};
ghost use Rattle.map_file.specs.MapRules.{IsMap, IsState};
ghost use Rattle.map_file.specs.MapText.{line};
ghost use Rattle.arrival_script.specs.Trace.{arrival_line, commit_line, open_line, port_line, sample_line, state_fields, state_field, step_line, step_lines, take_line};
ghost use Rattle.arrival_script.specs.TraceParts.{spaced};

use crate::entries::has;
use frp_tree::Ty;
use map_file::{Map, MapEvent, MapSample, MapState};
use pic_isa::{Source, port_name};
use pic_machine::{Chip, Did, PortWrite, Stepped};
use pic_regs::Regs;
use std::alloc::AllocError;

/// The sources, by number.
const SOURCES: [Source; 11] = [
    Source::T0,
    Source::Int,
    Source::Psp,
    Source::Ad,
    Source::Ssp,
    Source::Ccp1,
    Source::Tmr2,
    Source::Tmr1,
    Source::Ee,
    Source::Bcl,
    Source::Ccp2,
];

fn write_arrival(
    text: &mut String,
    step: u32,
    latched: u16,
    merged: u16,
    source: Source,
) -> Result<(), AllocError>
    ensures { OnOk result (string_bytes text.new ≡ string_bytes text.old ++ arrival_line step (set_of latched) (set_of merged) source) }
{
    let name = source.name();
    if has(latched, source) {
        writeln!(text, "{step} latch {name}")
    } else if has(merged, source) {
        writeln!(text, "{step} merge {name}")
    } else {
        Ok(())
    }
}

fn write_arrivals(
    text: &mut String,
    step: u32,
    latched: u16,
    merged: u16,
    sources: &[Source],
) -> Result<(), AllocError>
    ensures { OnOk result (string_bytes text.new ≡ string_bytes text.old ++ flat_map (arrival_line step (set_of latched) (set_of merged)) sources.now) }
{
    for source in sources {
        write_arrival(text, step, latched, merged, *source)?;
    }
    Ok(())
}

fn write_take(text: &mut String, step: u32, did: Did) -> Result<(), AllocError>
    ensures { OnOk result (string_bytes text.new ≡ string_bytes text.old ++ take_line step did) }
{
    match did {
        Did::Took => writeln!(text, "{step} take"),
        Did::Ran { .. } | Did::Stopped { .. } => Ok(()),
    }
}

// Whether the instruction at an address ran.
fn is_run_at(address: u16, did: Did) -> bool
    ensures { result ≡ is_run_at address did }
{
    match did {
        Did::Ran { address: at, .. } => at == address,
        Did::Took | Did::Stopped { .. } => false,
    }
}

#[tactic(auto, using(text_parts::proofs::DigitLaws::hex2_written))]
fn write_sample(
    text: &mut String,
    step: u32,
    did: Did,
    w: u8,
    sample: &MapSample,
) -> Result<(), AllocError>
    ensures { OnOk result (string_bytes text.new ≡ string_bytes text.old ++ sample_line step did w sample.now) }
{
    let event = sample.event.as_str();
    let input = sample.input.as_str();
    if is_run_at(sample.at, did) {
        writeln!(text, "{step} sample {event} {input} {w:02X}")
    } else {
        Ok(())
    }
}

fn write_samples(
    text: &mut String,
    step: u32,
    did: Did,
    w: u8,
    samples: &[MapSample],
) -> Result<(), AllocError>
    ensures { OnOk result (string_bytes text.new ≡ string_bytes text.old ++ flat_map (sample_line step did w) samples.now) }
{
    for sample in samples {
        write_sample(text, step, did, w, sample)?;
    }
    Ok(())
}

fn write_open(text: &mut String, step: u32, did: Did, event: &MapEvent) -> Result<(), AllocError>
    ensures { OnOk result (string_bytes text.new ≡ string_bytes text.old ++ open_line step did event.now) }
{
    let name = event.name.as_str();
    if is_run_at(event.open, did) {
        writeln!(text, "{step} open {name}")
    } else {
        Ok(())
    }
}

fn write_opens(
    text: &mut String,
    step: u32,
    did: Did,
    events: &[MapEvent],
) -> Result<(), AllocError>
    ensures { OnOk result (string_bytes text.new ≡ string_bytes text.old ++ flat_map (open_line step did) events.now) }
{
    for event in events {
        write_open(text, step, did, event)?;
    }
    Ok(())
}

// The name of the port with this number. Past the last it is the last's.
fn name_of(port: u8) -> &'static str
    ensures { result.now ≡ name_of_port port }
{
    port_name(port.min(4))
}

#[tactic(auto, using(text_parts::proofs::DigitLaws::hex2_written))]
fn write_port(text: &mut String, step: u32, port: Option<PortWrite>) -> Result<(), AllocError>
    ensures { OnOk result (string_bytes text.new ≡ string_bytes text.old ++ port_line step port) }
{
    let Some(PortWrite { port, byte }) = port else {
        return Ok(());
    };
    let name = name_of(port);
    writeln!(text, "{step} port {name} {byte:02X}")
}

// The value of a state.
fn value_in(regs: &Regs, state: &MapState) -> u16
    requires { IsState state.now }
    ensures { result ≡ value_in (registers_of regs.now) state.now.ty state.now.low state.now.high }
{
    let low = u16::from(regs.read(state.low));
    match state.ty {
        Ty::Bool | Ty::U8 => low,
        Ty::U16 => low + 256 * u16::from(regs.read(state.high)),
    }
}

fn write_state(text: &mut String, regs: &Regs, state: &MapState) -> Result<(), AllocError>
    requires { IsState state.now }
    ensures { OnOk result (string_bytes text.new ≡ string_bytes text.old ++ spaced (state_field (registers_of regs.now) state.now)) }
{
    let name = state.name.as_str();
    let value = value_in(regs, state);
    write!(text, " {name}={value}")
}

// The states, each after a space.
fn write_states(text: &mut String, regs: &Regs, states: &[MapState]) -> Result<(), AllocError>
    requires { AllByRecursion IsState states.now }
    ensures { OnOk result (string_bytes text.new ≡ string_bytes text.old
        ++ flat_map (λ s. spaced (state_field (registers_of regs.now) s)) states.now) }
{
    for state in states {
        write_state(text, regs, state)?;
    }
    Ok(())
}

/// Adds the states of a map, each after a space as its name, `=` and its value in decimal, and the end of the line. An `Err` is out
/// of memory.
pub fn end_with_states(text: &mut String, regs: &Regs, map: &Map) -> Result<(), AllocError>
    requires { IsMap map.now }
    ensures { OnOk result (string_bytes text.new ≡ string_bytes text.old
        ++ (flat_map (λ s. spaced (state_field (registers_of regs.now) s)) map.now.states ++ codes "\n")) }
{
    write_states(text, regs, map.states.as_slice())?;
    text.push_str("\n")
}

fn begin_commit(text: &mut String, step: u32, event: &MapEvent) -> Result<(), AllocError>
    ensures { OnOk result (string_bytes text.new ≡ string_bytes text.old ++ (decimal step ++ (codes " commit " ++ event.now.name))) }
{
    let name = event.name.as_str();
    write!(text, "{step} commit {name}")
}

fn write_commit(
    text: &mut String,
    step: u32,
    did: Did,
    regs: &Regs,
    map: &Map,
    event: &MapEvent,
) -> Result<(), AllocError>
    requires { IsMap map.now }
    ensures { OnOk result (string_bytes text.new ≡ string_bytes text.old ++ commit_line map.now step did (registers_of regs.now) event.now) }
{
    if !is_run_at(event.commit, did) {
        return Ok(());
    }
    begin_commit(text, step, event)?;
    end_with_states(text, regs, map)
}

fn write_commits(
    text: &mut String,
    step: u32,
    did: Did,
    regs: &Regs,
    map: &Map,
) -> Result<(), AllocError>
    requires { IsMap map.now }
    ensures { OnOk result (string_bytes text.new ≡ string_bytes text.old ++ flat_map (commit_line map.now step did (registers_of regs.now)) map.now.events) }
{
    for event in map.events.as_slice() {
        write_commit(text, step, did, regs, map, event)?;
    }
    Ok(())
}

/// Adds the lines of a step, by what it reported and the chip after it.
pub(crate) fn write_step(
    text: &mut String,
    map: &Map,
    step: u32,
    report: &Stepped,
    chip: &Chip,
) -> Result<(), AllocError>
    requires { IsMap map.now }
    ensures { (told : Step) → report.now ≡ stepped told → chip_of chip.now ≡ told.after
        → OnOk result (string_bytes text.new ≡ string_bytes text.old ++ step_lines map.now step told) }
{
    write_arrivals(text, step, report.latched, report.merged, &SOURCES)?;
    write_take(text, step, report.did)?;
    write_samples(text, step, report.did, chip.w(), map.samples.as_slice())?;
    write_opens(text, step, report.did, map.events.as_slice())?;
    write_port(text, step, report.port)?;
    write_commits(text, step, report.did, chip.regs(), map)
}

fn begin_end(text: &mut String, steps: u32, deepest: u32) -> Result<(), AllocError>
    ensures { OnOk result (string_bytes text.new ≡ string_bytes text.old
        ++ (codes "end " ++ (decimal steps ++ (codes " deepest " ++ decimal deepest)))) }
{
    write!(text, "end {steps} deepest {deepest}")
}

/// Adds the line after the last step.
pub(crate) fn write_end(
    text: &mut String,
    map: &Map,
    steps: u32,
    deepest: u32,
    regs: &Regs,
) -> Result<(), AllocError>
    requires { IsMap map.now }
    ensures { OnOk result (string_bytes text.new ≡ string_bytes text.old
        ++ line (codes "end" ∷ decimal steps ∷ codes "deepest" ∷ decimal deepest ∷ state_fields map.now (registers_of regs.now))) }
{
    begin_end(text, steps, deepest)?;
    end_with_states(text, regs, map)
}
