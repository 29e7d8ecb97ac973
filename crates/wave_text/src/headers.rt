// The header of a wave: what a unit of time is, and the declaration of each signal.
ghost use Rattle.std.specs.Prelude.{◌≡◌, ◌++◌, ◌<◌, OnOk, string_bytes, codes};
ghost use Rattle.std.specs.List.{AllByRecursion, flat_map};
ghost use Rattle.std.specs.Fmt.{decimal};
ghost use Rattle.map_file.specs.MapRules.{IsMap};
ghost use Rattle.wave_text.specs.Waves.{event_vars, header, port_var, scope_line, state_var, upscope_line, var_line};

use frp_tree::Ty;
use map_file::{Map, MapEvent, MapState};
use pic_isa::port_name;
use std::alloc::AllocError;

/// What stands before the declarations.
const PREFACE: &str =
    "$comment A unit of time is one step: an instruction or a taking. It is no measure of seconds. $end
$timescale 1 us $end
$scope module efrp $end
";

/// What stands behind the states.
const LAST: &str = "$upscope $end
$var wire 4 level level $end
$var wire 8 depth depth $end
$upscope $end
$enddefinitions $end
";

// A declaration, by the letter and the number of its code.
fn write_var(
    text: &mut String,
    bits: &str,
    letter: &str,
    number: u16,
    name: &str,
) -> Result<(), AllocError>
    ensures { OnOk result (string_bytes text.new ≡ string_bytes text.old ++ var_line bits.now (letter.now ++ decimal number) name.now) }
{
    writeln!(text, "$var wire {bits} {letter}{number} {name} $end")
}

fn write_scope(text: &mut String, name: &str) -> Result<(), AllocError>
    ensures { OnOk result (string_bytes text.new ≡ string_bytes text.old ++ scope_line name.now) }
{
    writeln!(text, "$scope module {name} $end")
}

fn write_upscope(text: &mut String) -> Result<(), AllocError>
    ensures { OnOk result (string_bytes text.new ≡ string_bytes text.old ++ upscope_line) }
{
    text.push_str("$upscope $end\n")
}

fn write_event(text: &mut String, event: &MapEvent) -> Result<(), AllocError>
    ensures { OnOk result (string_bytes text.new ≡ string_bytes text.old ++ event_vars event.now) }
{
    let source = u16::from(event.source.number());
    write_scope(text, event.name.as_str())?;
    write_var(text, "1", "l", source, "latch")?;
    write_var(text, "1", "r", source, "run")?;
    write_var(text, "1", "w", source, "window")?;
    write_upscope(text)
}

fn write_events(text: &mut String, events: &[MapEvent]) -> Result<(), AllocError>
    ensures { OnOk result (string_bytes text.new ≡ string_bytes text.old ++ flat_map event_vars events.now) }
{
    for event in events {
        write_event(text, event)?;
    }
    Ok(())
}

fn write_port(text: &mut String, port: u8) -> Result<(), AllocError>
    requires { port < 5 }
    ensures { OnOk result (string_bytes text.new ≡ string_bytes text.old ++ port_var port) }
{
    write_var(text, "8", "p", u16::from(port), port_name(port))
}

fn write_ports(text: &mut String, ports: &[u8]) -> Result<(), AllocError>
    requires { AllByRecursion (λ port. port < 5) ports.now }
    ensures { OnOk result (string_bytes text.new ≡ string_bytes text.old ++ flat_map port_var ports.now) }
{
    for port in ports {
        write_port(text, *port)?;
    }
    Ok(())
}

fn write_state(text: &mut String, state: &MapState) -> Result<(), AllocError>
    ensures { OnOk result (string_bytes text.new ≡ string_bytes text.old ++ state_var state.now) }
{
    let name = state.name.as_str();
    let low = state.low;
    let high = state.high;
    match state.ty {
        Ty::Bool => write_var(text, "1", "t", low, name),
        Ty::U8 => write_var(text, "8", "u", low, name),
        Ty::U16 => writeln!(text, "$var wire 16 v{low}.{high} {name} $end"),
    }
}

fn write_states(text: &mut String, states: &[MapState]) -> Result<(), AllocError>
    ensures { OnOk result (string_bytes text.new ≡ string_bytes text.old ++ flat_map state_var states.now) }
{
    for state in states {
        write_state(text, state)?;
    }
    Ok(())
}

/// Adds the header of a map's signals. An `Err` is out of memory.
pub(crate) fn write_header(text: &mut String, map: &Map) -> Result<(), AllocError>
    requires { IsMap map.now }
    ensures { OnOk result (string_bytes text.new ≡ string_bytes text.old ++ header map.now) }
{
    text.push_str(PREFACE)?;
    write_scope(text, "events")?;
    write_events(text, map.events.as_slice())?;
    write_upscope(text)?;
    write_scope(text, "ports")?;
    write_ports(text, map.outputs.as_slice())?;
    write_upscope(text)?;
    write_scope(text, "states")?;
    write_states(text, map.states.as_slice())?;
    text.push_str(LAST)
}
