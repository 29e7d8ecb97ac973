// The written form of one record.
ghost use Rattle.std.specs.Prelude.{◌≡◌, ◌<◌, ◌/◌, ◌%◌, [], ◌∷◌, ◌++◌, length, OnOk, string_bytes};
ghost use Rattle.text_parts.specs.Digits.{hex2};
ghost use Rattle.hex_file.specs.Kinds.{code};
ghost use Rattle.hex_file.specs.Written.{check_byte, line, record_of};

use std::alloc::{AllocError, Global};
use std::fmt::Write;

/// The types of the records that are written, with their numbers in Intel's specification. The bytes of a
/// `LinearAddress` are the upper 16 bits of the byte addresses after it.
#[derive(Clone, Copy)]
pub enum Kind {
    Data = 0,
    EndOfFile = 1,
    LinearAddress = 4,
}

/// The byte that makes the sum of these bytes and itself 0 modulo 256.
pub fn check_byte(bytes: &[u8]) -> u8
    ensures { result ≡ check_byte bytes.now }
{
    bytes
        .iter()
        .fold(0u8, |sum, byte| sum.wrapping_add(*byte))
        .wrapping_neg()
}

/// Appends a byte in two digits.
#[tactic(auto, using(text_parts::proofs::DigitLaws::hex2_written))]
fn push_byte(text: &mut String, byte: u8) -> Result<(), AllocError>
    ensures { OnOk result (string_bytes text.new ≡ string_bytes text.old ++ hex2 byte) }
{
    write!(text, "{byte:02X}")
}

/// Appends the line of a record: its bytes, check byte included, after a colon.
fn push_line(text: &mut String, bytes: &[u8]) -> Result<(), AllocError>
    ensures { OnOk result (string_bytes text.new ≡ string_bytes text.old ++ line bytes.now) }
{
    text.push(':')?;
    for byte in bytes {
        push_byte(text, *byte)?;
    }
    text.push('\n')
}

/// Appends a record of this type, at this byte address, with these bytes of data, at most 255. An `Err` is out
/// of memory.
pub fn push_record(
    alloc: Global,
    text: &mut String,
    kind: Kind,
    address: u16,
    bytes: &[u8],
) -> Result<(), AllocError>
    requires { length bytes.now < 256 }
    ensures { OnOk result (string_bytes text.new ≡ string_bytes text.old ++ record_of (code kind) address bytes.now) }
{
    let mut record = head(kind, address, bytes.len() as u8).to_vec(alloc)?;
    record.extend_from_slice(bytes)?;
    record.push(check_byte(&record))?;
    push_line(text, &record)
}

/// The bytes of a record before its data: how many bytes of data there are, the address, high byte first, and
/// the type.
#[tactic(auto, using(crate::proofs::ByteFacts::be_word_bytes))]
fn head(kind: Kind, address: u16, count: u8) -> [u8; 4]
    ensures { result ≡ count ∷ address / 256 ∷ address % 256 ∷ code kind ∷ [] }
{
    let [high, low] = address.to_be_bytes();
    [count, high, low, kind as u8]
}
