// The lines of the faults of a HEX file, a map and a script, and of a stop.
ghost use Rattle.std.specs.Prelude.{◌≡◌, ◌≢◌, IfOk, string_bytes};
ghost use Rattle.run_inputs.specs.RunLines.{
  hex_line_at,
  hex_line,
  map_line,
  script_line,
  stop_line,
  cause_word,
  why_word,
};

use arrival_script::Cause;
use hex_file::HexFault;
use pic_machine::Why;
use std::alloc::{AllocError, Global};

// A line on a line of a HEX file.
fn hex_line_at(alloc: Global, line: u32, rest: &str) -> Result<String, AllocError>
    ensures { IfOk result (λ text. string_bytes text ≡ hex_line_at line rest.now) }
{
    format!(in alloc; "refused: hex {line}{rest}")
}

#[tactic(auto, using(text_parts::proofs::DigitLaws::hex2_written))]
fn sum_line(alloc: Global, line: u32, got: u8, want: u8) -> Result<String, AllocError>
    ensures { IfOk result (λ text. string_bytes text ≡ hex_line (HexFault.BadSum line got want)) }
{
    format!(in alloc; "refused: hex {line} sum {got:02X} {want:02X}\n")
}

#[tactic(auto, using(text_parts::proofs::DigitLaws::hex2_written))]
fn type_line(alloc: Global, line: u32, kind: u8) -> Result<String, AllocError>
    ensures { IfOk result (λ text. string_bytes text ≡ hex_line (HexFault.BadType line kind)) }
{
    format!(in alloc; "refused: hex {line} type {kind:02X}\n")
}

#[tactic(auto, using(text_parts::proofs::DigitLaws::hex4_written))]
fn clash_line(alloc: Global, line: u32, address: u16) -> Result<String, AllocError>
    ensures { IfOk result (λ text. string_bytes text ≡ hex_line (HexFault.Clash line address)) }
{
    format!(in alloc; "refused: hex {line} clash {address:04X}\n")
}

/// The line of a HEX file's fault. Where memory ran out, which has no line, there is an `Err` too.
pub fn hex_line(alloc: Global, fault: HexFault) -> Result<String, AllocError>
    ensures { IfOk result (λ line. (fault ≢ HexFault.Memory) × (string_bytes line ≡ hex_line fault)) }
{
    match fault {
        HexFault::BadChar(line) => hex_line_at(alloc, line, " char\n"),
        HexFault::BadLength(line) => hex_line_at(alloc, line, " length\n"),
        HexFault::BadSum { line, got, want } => sum_line(alloc, line, got, want),
        HexFault::BadType { line, kind } => type_line(alloc, line, kind),
        HexFault::OutOfRange(line) => hex_line_at(alloc, line, " range\n"),
        HexFault::Clash { line, address } => clash_line(alloc, line, address),
        HexFault::NoEnd => format!(in alloc; "refused: hex no end\n"),
        HexFault::AfterEnd(line) => hex_line_at(alloc, line, " after end\n"),
        HexFault::Memory => Err(AllocError),
    }
}

/// The line of a map's first faulty line.
pub fn map_line(alloc: Global, line: u32) -> Result<String, AllocError>
    ensures { IfOk result (λ text. string_bytes text ≡ map_line line) }
{
    format!(in alloc; "refused: map {line}\n")
}

// The word for a cause.
fn cause_word(cause: Cause) -> &'static str
    ensures { result.now ≡ cause_word cause }
{
    match cause {
        Cause::AfterSteps => "after",
        Cause::BadLine => "line",
        Cause::BadNumber => "number",
        Cause::UnknownSource => "source",
        Cause::UnknownPort => "port",
        Cause::SourceTwice => "twice",
        Cause::NotRising => "rising",
        Cause::PinTwice => "pintwice",
        Cause::NoSteps => "nosteps",
        Cause::PastEnd => "past",
    }
}

/// The line of a script's fault.
pub fn script_line(alloc: Global, line: u32, cause: Cause) -> Result<String, AllocError>
    ensures { IfOk result (λ text. string_bytes text ≡ script_line line cause) }
{
    let word = cause_word(cause);
    format!(in alloc; "refused: script {line} {word}\n")
}

// The word for why the chip stopped.
fn why_word(why: Why) -> &'static str
    ensures { result.now ≡ why_word why }
{
    match why {
        Why::UnknownWord => "word",
        Why::Sleep => "sleep",
    }
}

/// The line of a stop at a step, at an address in words.
#[tactic(auto, using(text_parts::proofs::DigitLaws::hex4_written))]
pub fn stop_line(alloc: Global, step: u32, address: u16, why: Why) -> Result<String, AllocError>
    ensures { IfOk result (λ text. string_bytes text ≡ stop_line step address why) }
{
    let word = why_word(why);
    format!(in alloc; "refused: stop {step} {address:04X} {word}\n")
}
