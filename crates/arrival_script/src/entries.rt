// What a line says by itself.
ghost use Rattle.std.specs.Prelude.{◌≡◌, ◌<◌, ◌≤◌, ◌^◌, ◌∷◌, [], false, true, length, MatchOption, IsTrue, codes, ◌||◌, ◌*◌};
ghost use Rattle.std.specs.List.{list_all, list_any};
ghost use Rattle.std.specs.Str.{bytes_eq};
ghost use Rattle.text_parts.specs.Fields.{fields_of};
ghost use Rattle.text_parts.specs.Numbers.{value_after};
ghost use Rattle.pic_isa.specs.Sources.{source_name, source_number};
ghost use Rattle.pic_regs.specs.Arrivals.{number_of, set_of};
ghost use Rattle.arrival_script.specs.Scripts.{is_number, is_source, is_port, port_number, late_named};
ghost use Rattle.arrival_script.specs.Entries.{EntryOf, SetOf, line_of};

use crate::scripts::{Arrival, Cause, Late, PinChange};
use pic_isa::{Source, port_named, source_named};
use std::str;
use text_parts::{byte_in, decimal_in, next_field};

/// What a line says by itself.
#[derive(Clone, Copy, Debug, PartialEq, Eq)]
pub(crate) enum Entry {
    Fill(u8),
    Late(Late),
    At(Arrival),
    Pin(PinChange),
    Steps(u32),
}

/// The greatest number of digits of a number.
const LONGEST_NUMBER: usize = 8;

/// The greatest number of steps.
const MOST_STEPS: u32 = 10_000_000;

// The number that one to eight decimal digits are.
fn number_of(field: &[u8]) -> Option<u32>
    ensures { MatchOption result (is_number field.now ≡ false) (λ n. IsTrue (is_number field.now) × (n ≡ value_after 10 0 field.now)) }
{
    if field.len() > LONGEST_NUMBER {
        return None;
    }
    decimal_in(field)
}

// The source that a field names.
fn source_of(field: &[u8]) -> Option<Source>
    ensures { MatchOption result (is_source field.now ≡ false) (λ source. IsTrue (is_source field.now) × (field.now ≡ source_name source)) }
{
    match str::from_utf8(field) {
        Ok(name) => source_named(name),
        Err(_) => None,
    }
}

// The number of the port that a field names.
fn port_of(field: &[u8]) -> Option<u8>
    ensures { MatchOption result (is_port field.now ≡ false) (λ port. IsTrue (is_port field.now) × (port ≡ port_number field.now) × (port < 5)) }
{
    match str::from_utf8(field) {
        Ok(name) => port_named(name),
        Err(_) => None,
    }
}

// The bit of a source in a set.
fn bit_of(source: Source) -> u16
    ensures { result ≡ 2 ^ source_number source }
{
    1 << source.number()
}

// Whether a set has a source.
pub(crate) fn has(set: u16, source: Source) -> bool
    ensures { result ≡ set_of set source }
{
    set / bit_of(source) % 2 == 1
}

// A set with a source.
fn with(set: u16, source: Source) -> u16
    requires { set < 2048 }
    ensures { result ≡ number_of (λ other. bytes_eq (source_name other) (source_name source) || set_of set other) }
{
    if has(set, source) {
        set
    } else {
        set + bit_of(source)
    }
}

// The set of the sources that the fields of a text name, all of them and no one twice.
fn sources_of(text: &[u8]) -> Result<u16, Cause>
    ensures { SetOf (fields_of text.now) result }
{
    let mut set = 0;
    let mut twice = false;
    let mut rest = text;
    while let Some((name, more)) = next_field(rest) {
        let Some(source) = source_of(name) else {
            return Err(Cause::UnknownSource);
        };
        twice = twice || has(set, source);
        set = with(set, source);
        rest = more;
    }
    if twice {
        Err(Cause::SourceTwice)
    } else {
        Ok(set)
    }
}

// The only field of a text.
fn only_field(text: &[u8]) -> Option<&[u8]>
    ensures { MatchOption result (length (fields_of text.now) ≡ 1 → ⊥) (λ field. fields_of text.now ≡ field.now ∷ []) }
{
    let (field, more) = next_field(text)?;
    match next_field(more) {
        None => Some(field),
        Some(_) => None,
    }
}

// What a line of the word `fill` says.
fn fill_entry(text: &[u8]) -> Result<Entry, Cause>
    ensures { EntryOf (line_of (codes "fill" ∷ fields_of text.now)) result }
{
    let field = only_field(text).ok_or(Cause::BadLine)?;
    match byte_in(field) {
        Some(byte) => Ok(Entry::Fill(byte)),
        None => Err(Cause::BadLine),
    }
}

// Whether a field is a word.
fn is_word(field: &[u8], word: &[u8]) -> bool
    ensures { result ≡ bytes_eq field.now word.now }
{
    field == word
}

// When interrupts are late, by a word.
fn late_named(field: &[u8]) -> Option<Late>
    ensures { result ≡ late_named field.now }
{
    if is_word(field, b"never") {
        Some(Late::Never)
    } else if is_word(field, b"always") {
        Some(Late::Always)
    } else if is_word(field, b"odd") {
        Some(Late::Odd)
    } else {
        None
    }
}

// What a line of the word `late` says.
fn late_entry(text: &[u8]) -> Result<Entry, Cause>
    ensures { EntryOf (line_of (codes "late" ∷ fields_of text.now)) result }
{
    let field = only_field(text).ok_or(Cause::BadLine)?;
    match late_named(field) {
        Some(late) => Ok(Entry::Late(late)),
        None => Err(Cause::BadLine),
    }
}

// What a line of the word `at` says.
fn at_entry(text: &[u8]) -> Result<Entry, Cause>
    ensures { EntryOf (line_of (codes "at" ∷ fields_of text.now)) result }
{
    let (boundary, names) = next_field(text).ok_or(Cause::BadLine)?;
    if next_field(names).is_none() {
        return Err(Cause::BadLine);
    }
    let at = number_of(boundary).ok_or(Cause::BadNumber)?;
    let sources = sources_of(names)?;
    Ok(Entry::At(Arrival { at, sources }))
}

// What a line of the word `pin` says.
fn pin_entry(text: &[u8]) -> Result<Entry, Cause>
    ensures { EntryOf (line_of (codes "pin" ∷ fields_of text.now)) result }
{
    let (boundary, more) = next_field(text).ok_or(Cause::BadLine)?;
    let (name, last) = next_field(more).ok_or(Cause::BadLine)?;
    let field = only_field(last).ok_or(Cause::BadLine)?;
    let byte = byte_in(field).ok_or(Cause::BadLine)?;
    let at = number_of(boundary).ok_or(Cause::BadNumber)?;
    let port = port_of(name).ok_or(Cause::UnknownPort)?;
    Ok(Entry::Pin(PinChange { at, port, byte }))
}

// What a line of the word `steps` says.
fn steps_entry(text: &[u8]) -> Result<Entry, Cause>
    ensures { EntryOf (line_of (codes "steps" ∷ fields_of text.now)) result }
{
    let field = only_field(text).ok_or(Cause::BadLine)?;
    match number_of(field) {
        Some(steps) if (1..=MOST_STEPS).contains(&steps) => Ok(Entry::Steps(steps)),
        _ => Err(Cause::BadNumber),
    }
}

/// What a line says by itself, by its word and the text after that, or the cause that applies to it, whichever
/// lines stand before.
pub(crate) fn read_entry(word: &[u8], text: &[u8]) -> Result<Entry, Cause>
    ensures { EntryOf (line_of (word.now ∷ fields_of text.now)) result }
{
    match word {
        b"fill" => fill_entry(text),
        b"late" => late_entry(text),
        b"at" => at_entry(text),
        b"pin" => pin_entry(text),
        b"steps" => steps_entry(text),
        _ => Err(Cause::BadLine),
    }
}
