// The lines of signals that changed, and of all at power-on.
ghost use Rattle.std.specs.Prelude.{◌≡◌, ◌++◌, ◌==◌, OnOk, length, string_bytes, codes};
ghost use Rattle.std.specs.List.{flat_map};
ghost use Rattle.std.specs.Fmt.{decimal, digits};
ghost use Rattle.pic_isa.specs.Sources.{source_number};
ghost use Rattle.wave_text.specs.Waves.{bit_line, byte_line, change_line, change_lines, first_lines, is_other, level_change, level_line, moment, number_line, signal_line, state_line, time_line, value};

use crate::signals::Signal;
use frp_tree::Ty;
use std::alloc::AllocError;

// The line of a bit, by the letter and the number of its code.
fn write_bit(text: &mut String, letter: &str, number: u16, on: bool) -> Result<(), AllocError>
    ensures { OnOk result (string_bytes text.new ≡ string_bytes text.old ++ bit_line (letter.now ++ decimal number) on) }
{
    if on {
        writeln!(text, "1{letter}{number}")
    } else {
        writeln!(text, "0{letter}{number}")
    }
}

// The line of a number, by the letter and the number of its code.
fn write_number(text: &mut String, letter: &str, number: u16, value: u16) -> Result<(), AllocError>
    ensures { OnOk result (string_bytes text.new ≡ string_bytes text.old ++ number_line (letter.now ++ decimal number) value) }
{
    writeln!(text, "b{value:b} {letter}{number}")
}

// The line of a number, by its code.
fn write_named(text: &mut String, code: &str, value: u8) -> Result<(), AllocError>
    ensures { OnOk result (string_bytes text.new ≡ string_bytes text.old ++ number_line code.now value) }
{
    writeln!(text, "b{value:b} {code}")
}

// The line of a port.
fn write_port(text: &mut String, port: u8, byte: Option<u8>) -> Result<(), AllocError>
    ensures { OnOk result (string_bytes text.new ≡ string_bytes text.old ++ signal_line (Signal.Port port byte)) }
{
    match byte {
        Some(byte) => write_number(text, "p", u16::from(port), u16::from(byte)),
        None => writeln!(text, "bx p{port}"),
    }
}

// The line of a state of two bytes.
fn write_word(text: &mut String, low: u16, high: u16, value: u16) -> Result<(), AllocError>
    ensures { OnOk result (string_bytes text.new ≡ string_bytes text.old ++ state_line Ty.U16 low high value) }
{
    writeln!(text, "b{value:b} v{low}.{high}")
}

// The line of a state.
fn write_state(text: &mut String, ty: Ty, low: u16, high: u16, value: u16) -> Result<(), AllocError>
    ensures { OnOk result (string_bytes text.new ≡ string_bytes text.old ++ state_line ty low high value) }
{
    match ty {
        Ty::Bool => write_bit(text, "t", low, value != 0),
        Ty::U8 => write_number(text, "u", low, value),
        Ty::U16 => write_word(text, low, high, value),
    }
}

// The line of a signal.
fn write_signal(text: &mut String, signal: Signal) -> Result<(), AllocError>
    ensures { OnOk result (string_bytes text.new ≡ string_bytes text.old ++ signal_line signal) }
{
    match signal {
        Signal::Latch { source, on } => write_bit(text, "l", u16::from(source.number()), on),
        Signal::Run { source, on, .. } => write_bit(text, "r", u16::from(source.number()), on),
        Signal::Window { source, on, .. } => write_bit(text, "w", u16::from(source.number()), on),
        Signal::Port { port, byte } => write_port(text, port, byte),
        Signal::State {
            ty,
            low,
            high,
            value,
        } => write_state(text, ty, low, high, value),
        Signal::Depth { depth } => write_named(text, "depth", depth),
    }
}

// The value of a signal.
fn value(signal: Signal) -> Option<u16>
    ensures { result ≡ value signal }
{
    match signal {
        Signal::Latch { on, .. } | Signal::Run { on, .. } | Signal::Window { on, .. } => {
            Some(u16::from(on))
        }
        Signal::Port { byte, .. } => byte.map(u16::from),
        Signal::State { value, .. } => Some(value),
        Signal::Depth { depth } => Some(u16::from(depth)),
    }
}

// Whether two values differ.
fn is_other(before: Option<u16>, now: Option<u16>) -> bool
    ensures { result ≡ is_other before now }
{
    match (before, now) {
        (None, None) => false,
        (Some(before), Some(now)) => before != now,
        (None, Some(_)) | (Some(_), None) => true,
    }
}

// Adds the line of a signal, where it changed.
fn write_change(text: &mut String, before: Signal, now: Signal) -> Result<(), AllocError>
    ensures { OnOk result (string_bytes text.new ≡ string_bytes text.old ++ change_line before now) }
{
    if is_other(value(before), value(now)) {
        write_signal(text, now)
    } else {
        Ok(())
    }
}

/// Adds the lines of the signals that changed. An `Err` is out of memory.
pub(crate) fn write_changes(
    text: &mut String,
    before: &[Signal],
    now: &[Signal],
) -> Result<(), AllocError>
    requires { length before.now ≡ length now.now }
    ensures { OnOk result (string_bytes text.new ≡ string_bytes text.old ++ change_lines before.now now.now) }
{
    for i in 0..before.len() {
        write_change(text, before[i], now[i])?;
    }
    Ok(())
}

/// Adds the line of the level, where it changed. An `Err` is out of memory.
pub(crate) fn write_level_change(text: &mut String, before: u8, now: u8) -> Result<(), AllocError>
    ensures { OnOk result (string_bytes text.new ≡ string_bytes text.old ++ level_change before now) }
{
    if before == now {
        Ok(())
    } else {
        write_named(text, "level", now)
    }
}

/// Adds the lines of a time, in steps, with what changed. Where nothing did, the time stands alone if it is the last, and isn't
/// told otherwise. An `Err` is out of memory.
pub(crate) fn write_moment(
    text: &mut String,
    last: bool,
    time: u32,
    changes: &str,
) -> Result<(), AllocError>
    ensures { OnOk result (string_bytes text.new ≡ string_bytes text.old ++ moment last time changes.now) }
{
    if last || !changes.is_empty() {
        writeln!(text, "#{time}")?;
    }
    text.push_str(changes)
}

// Adds the lines of all signals.
fn write_signals(text: &mut String, signals: &[Signal]) -> Result<(), AllocError>
    ensures { OnOk result (string_bytes text.new ≡ string_bytes text.old ++ flat_map signal_line signals.now) }
{
    for signal in signals {
        write_signal(text, *signal)?;
    }
    Ok(())
}

/// Adds the lines of all signals and of the level at power-on. An `Err` is out of memory.
pub(crate) fn write_first(
    text: &mut String,
    signals: &[Signal],
    level: u8,
) -> Result<(), AllocError>
    ensures { OnOk result (string_bytes text.new ≡ string_bytes text.old ++ first_lines signals.now level) }
{
    text.push_str("#0\n$dumpvars\n")?;
    write_signals(text, signals)?;
    write_named(text, "level", level)?;
    text.push_str("$end\n")
}
