// The signals of a run, and what each becomes with a step.
ghost use Rattle.std.specs.Prelude.{◌≡◌, ◌++◌, ◌∷◌, [], length, max, map, None, IfOk, OnOk};
ghost use Rattle.std.specs.List.{AllByRecursion, flat_map};
ghost use Rattle.pic_regs.specs.Arrivals.{set_of};
ghost use Rattle.pic_regs.specs.State.{registers_of};
ghost use Rattle.pic_machine.specs.Boundary.{Step};
ghost use Rattle.pic_machine.specs.Dids.{is_run_at};
ghost use Rattle.pic_machine.specs.State.{chip_of};
ghost use Rattle.map_file.specs.MapRules.{IsMap, IsState};
ghost use Rattle.arrival_script.specs.Playing.{IsSeen};
ghost use Rattle.wave_text.specs.Signals.{HasPlace, at_first, event_at_first, level_in, next, port_next, shown_value, state_at_first};

use arrival_script::Seen;
use frp_tree::Ty;
use map_file::{Map, MapEvent, MapState};
use pic_isa::Source;
use pic_machine::{Chip, Did, PortWrite};
use pic_regs::Regs;
use std::alloc::{AllocError, Global};

/// A signal of a run: what it is of, by the map, and its value. A latch is its source's flag. An event's run is on from the
/// step that clears its flag to its commit, and its window from its open to its commit. A port has the byte that was last put
/// on it, and none before the first. A state has its value, of a bool 0 or 1, and the depth is that of the return stack.
#[derive(Clone, Copy, Debug)]
pub enum Signal {
    Latch {
        source: Source,
        on: bool,
    },
    Run {
        source: Source,
        priority: u8,
        commits: u16,
        on: bool,
    },
    Window {
        source: Source,
        opens: u16,
        commits: u16,
        on: bool,
    },
    Port {
        port: u8,
        byte: Option<u8>,
    },
    State {
        ty: Ty,
        low: u16,
        high: u16,
        value: u16,
    },
    Depth {
        depth: u8,
    },
}

// Whether a set has a source.
fn has(set: u16, source: Source) -> bool
    ensures { result ≡ set_of set source }
{
    set / (1 << source.number()) % 2 == 1
}

// Whether the instruction at an address ran.
fn is_run_at(address: u16, did: Did) -> bool
    ensures { result ≡ is_run_at address did }
{
    match did {
        Did::Ran { address: at, .. } => at == address,
        Did::Took | Did::Stopped { .. } => false,
    }
}

// The byte of a port after what a step put.
fn port_next(port: u8, put: Option<PortWrite>, last: Option<u8>) -> Option<u8>
    ensures { result ≡ port_next port put last }
{
    match put {
        Some(write) if write.port == port => Some(write.byte),
        _ => last,
    }
}

// The value that is shown of a state.
fn value_of(regs: &Regs, ty: Ty, low: u16, high: u16) -> u16
    requires { HasPlace (Signal.State ty low high 0) }
    ensures { result ≡ shown_value (registers_of regs.now) ty low high }
{
    let byte = u16::from(regs.read(low));
    match ty {
        Ty::Bool => u16::from(byte != 0),
        Ty::U8 => byte,
        Ty::U16 => byte + 256 * u16::from(regs.read(high)),
    }
}

impl Signal {
    // The signal after a step, by what was seen of it and the chip after it.
    fn next(self, seen: &Seen, chip: &Chip) -> Signal
        requires { HasPlace self }
        ensures { (step : Step) → IsSeen step seen.now → chip_of chip.now ≡ step.after → result ≡ next step self }
    {
        match self {
            Signal::Latch { source, .. } => Signal::Latch {
                source,
                on: chip.regs().flag(source),
            },
            Signal::Run {
                source,
                priority,
                commits,
                on,
            } => Signal::Run {
                source,
                priority,
                commits,
                on: !is_run_at(commits, seen.did)
                    && (on || has(seen.arrived, source) && !chip.regs().flag(source)),
            },
            Signal::Window {
                source,
                opens,
                commits,
                on,
            } => Signal::Window {
                source,
                opens,
                commits,
                on: !is_run_at(commits, seen.did) && (on || is_run_at(opens, seen.did)),
            },
            Signal::Port { port, byte } => Signal::Port {
                port,
                byte: port_next(port, seen.port, byte),
            },
            Signal::State { ty, low, high, .. } => Signal::State {
                ty,
                low,
                high,
                value: value_of(chip.regs(), ty, low, high),
            },
            Signal::Depth { .. } => Signal::Depth {
                depth: chip.depth(),
            },
        }
    }
}

/// The signals after a step, by what was seen of it and the chip after it. An `Err` is out of memory.
pub(crate) fn next_signals(
    alloc: Global,
    signals: &[Signal],
    seen: &Seen,
    chip: &Chip,
) -> Result<Vec<Signal>, AllocError>
    requires { AllByRecursion HasPlace signals.now }
    ensures is { (step : Step) → IsSeen step seen.now → chip_of chip.now ≡ step.after → IfOk result (λ now. now.items ≡ map (next step) signals.now) }
    ensures same { IfOk result (λ now. length now.items ≡ length signals.now) }
{
    let mut now = Vec::new(alloc);
    for signal in signals {
        now.push(signal.next(seen, chip))?;
    }
    Ok(now)
}

// The greater of a level and the priority of a run that is on.
fn level_with(level: u8, signal: Signal) -> u8
    ensures { result ≡ max level (level_in (signal ∷ [])) }
{
    match signal {
        Signal::Run {
            priority,
            on: true,
            ..
        } => level.max(priority),
        _ => level,
    }
}

/// The greatest priority of the runs that are on, and 0 where none is.
pub(crate) fn level_in(signals: &[Signal]) -> u8
    ensures { result ≡ level_in signals.now }
{
    let mut level = 0;
    for signal in signals {
        level = level_with(level, *signal);
    }
    level
}

// Adds the three signals of an event.
fn add_event(signals: &mut Vec<Signal>, event: &MapEvent, regs: &Regs) -> Result<(), AllocError>
    ensures { OnOk result (signals.new.items ≡ signals.old.items ++ event_at_first (registers_of regs.now) event.now) }
{
    let source = event.source;
    signals.push(Signal::Latch {
        source,
        on: regs.flag(source),
    })?;
    signals.push(Signal::Run {
        source,
        priority: event.priority,
        commits: event.commit,
        on: false,
    })?;
    signals.push(Signal::Window {
        source,
        opens: event.open,
        commits: event.commit,
        on: false,
    })?;
    Ok(())
}

fn state_at_first(state: &MapState, regs: &Regs) -> Signal
    requires { IsState state.now }
    ensures { result ≡ state_at_first (registers_of regs.now) state.now }
{
    Signal::State {
        ty: state.ty,
        low: state.low,
        high: state.high,
        value: value_of(regs, state.ty, state.low, state.high),
    }
}

// Adds the signals of the events.
fn add_events(signals: &mut Vec<Signal>, events: &[MapEvent], regs: &Regs) -> Result<(), AllocError>
    ensures { OnOk result (signals.new.items ≡ signals.old.items ++ flat_map (event_at_first (registers_of regs.now)) events.now) }
{
    for event in events {
        add_event(signals, event, regs)?;
    }
    Ok(())
}

// Adds the signals of the ports.
fn add_ports(signals: &mut Vec<Signal>, ports: &[u8]) -> Result<(), AllocError>
    ensures { OnOk result (signals.new.items ≡ signals.old.items ++ map (λ port. Signal.Port port None) ports.now) }
{
    for port in ports {
        signals.push(Signal::Port {
            port: *port,
            byte: None,
        })?;
    }
    Ok(())
}

// Adds the signals of the states.
fn add_states(signals: &mut Vec<Signal>, states: &[MapState], regs: &Regs) -> Result<(), AllocError>
    requires { AllByRecursion IsState states.now }
    ensures { OnOk result (signals.new.items ≡ signals.old.items ++ map (state_at_first (registers_of regs.now)) states.now) }
{
    for state in states {
        signals.push(state_at_first(state, regs))?;
    }
    Ok(())
}

/// The signals of a map before the first step. An `Err` is out of memory.
pub(crate) fn at_first(alloc: Global, map: &Map, chip: &Chip) -> Result<Vec<Signal>, AllocError>
    requires { IsMap map.now }
    ensures { IfOk result (λ signals. signals.items ≡ at_first map.now (chip_of chip.now)) }
{
    let mut signals = Vec::new(alloc);
    add_events(&mut signals, map.events.as_slice(), chip.regs())?;
    add_ports(&mut signals, map.outputs.as_slice())?;
    add_states(&mut signals, map.states.as_slice(), chip.regs())?;
    signals.push(Signal::Depth {
        depth: chip.depth(),
    })?;
    Ok(signals)
}
