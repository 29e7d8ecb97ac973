// The record that a line spells, or what is wrong with the line.
ghost use Rattle.std.specs.Prelude.{◌≡◌, ◌<◌, ◌+◌, ◌%◌, ◌⊎◌, ◌==◌, ◌||◌, not, nat_lt, [], length, IfOk, IfErr, OnOk, OnErr, true, false};
ghost use Rattle.std.specs.List.{list_all};
ghost use Rattle.hex_file.specs.Faults.{
  bytes_of,
  told_length,
  record_in,
  got_sum,
  want_sum,
  has_bad_char,
  has_bad_length,
  has_bad_sum,
  has_bad_payload,
  is_out_of_range,
  line_fault,
};
ghost use Rattle.hex_file.specs.ImageOf.{IsRecordLine};
ghost use Rattle.hex_file.specs.Tables.{held_record};

use crate::faults::HexFault;
use crate::records::check_byte;
use crate::texts::spelled;
use std::alloc::{AllocError, Global};
use text_parts::are_hex_digits;

/// A record that was read: its byte address, the number of its type, and its data.
#[derive(Drop)]
pub struct Record {
    pub address: u16,
    pub kind: u8,
    pub payload: Vec<u8>,
}

impl Record {
    /// Whether it is an end with data, or an upper address that isn't of two bytes.
    fn has_bad_payload(&self) -> bool
        ensures { result ≡ has_bad_payload (held_record self.now) }
    {
        match self.kind {
            1 => !self.payload.is_empty(),
            2 | 4 => self.payload.len() != 2,
            _ => false,
        }
    }

    /// Whether it is an upper address other than 0, or data that goes past FFFFh.
    fn is_out_of_range(&self) -> bool
        ensures { result ≡ is_out_of_range (held_record self.now) }
    {
        match self.kind {
            0 => usize::from(self.address) + self.payload.len() > 0x1_0000,
            2 | 4 => !are_zero(&self.payload),
            _ => false,
        }
    }
}

/// Whether these bytes are all 0.
fn are_zero(bytes: &[u8]) -> bool
    ensures { result ≡ list_all (λ byte. byte == 0) bytes.now }
{
    bytes.iter().all(|byte| *byte == 0)
}

/// Whether a line doesn't begin with a colon, or has another byte than hexadecimal digits after its first.
fn has_bad_char(line: &[u8]) -> bool
    requires { 0 < length line.now }
    ensures { result ≡ has_bad_char line.now }
{
    line[0] != b':' || !are_hex_digits(&line[1..])
}

/// The bytes of a line that isn't empty: five at least, and as many as the first tells.
fn line_bytes(alloc: Global, number: u32, line: &[u8]) -> Result<Vec<u8>, HexFault>
    requires { 0 < length line.now }
    ensures bytes { IfOk result (λ bytes. bytes.items ≡ bytes_of line.now) }
    ensures chars { OnOk result (has_bad_char line.now ≡ false) }
    ensures told { OnOk result (has_bad_length line.now ≡ false) }
    ensures fault { IfErr result (λ fault. (fault ≡ HexFault.Memory) ⊎ (line_fault [] number line.now ≡ Some fault)) }
{
    if has_bad_char(line) {
        return Err(HexFault::BadChar(number));
    }
    let digits = &line[1..];
    let bytes = spelled(alloc, digits)?;
    if has_bad_length(digits.len(), &bytes) {
        return Err(HexFault::BadLength(number));
    }
    Ok(bytes)
}

/// Whether so many digits are odd in number, or the bytes fewer than five or not as many as the first tells.
fn has_bad_length(digits: usize, bytes: &[u8]) -> bool
    ensures { result ≡ (digits % 2 == 1 || nat_lt (length bytes.now) 5 || not (length bytes.now == told_length bytes.now + 5)) }
{
    digits % 2 == 1 || bytes.len() < 5 || bytes.len() != usize::from(bytes[0]) + 5
}

/// Refuses the bytes of a line with a wrong check byte.
fn check_sum(number: u32, bytes: &[u8]) -> Result<(), HexFault>
    requires { length bytes.now ≡ told_length bytes.now + 5 }
    ensures right { OnOk result (has_bad_sum bytes.now ≡ false) }
    ensures wrong { OnErr result (has_bad_sum bytes.now ≡ true) }
    ensures fault { IfErr result (λ fault. fault ≡ HexFault.BadSum number (got_sum bytes.now) (want_sum bytes.now)) }
{
    let end = bytes.len() - 1;
    let got = bytes[end];
    let want = check_byte(&bytes[..end]);
    if got == want {
        Ok(())
    } else {
        Err(HexFault::BadSum {
            line: number,
            got,
            want,
        })
    }
}

/// The record of a line's bytes. An `Err` is out of memory.
fn record_in(alloc: Global, bytes: &[u8]) -> Result<Record, AllocError>
    requires { length bytes.now ≡ told_length bytes.now + 5 }
    ensures { IfOk result (λ r. held_record r ≡ record_in bytes.now) }
{
    let payload = bytes[4..bytes.len() - 1].to_vec(alloc)?;
    Ok(Record {
        address: 256 * u16::from(bytes[1]) + u16::from(bytes[2]),
        kind: bytes[3],
        payload,
    })
}

/// The record of a line that isn't empty, or the line's fault, apart from what earlier lines say.
pub fn read_record(alloc: Global, number: u32, line: &[u8]) -> Result<Record, HexFault>
    requires { 0 < length line.now }
    ensures record { IfOk result (λ r. IsRecordLine line.now (held_record r)) }
    ensures fault { IfErr result (λ fault. (fault ≡ HexFault.Memory) ⊎ (line_fault [] number line.now ≡ Some fault)) }
{
    let bytes = line_bytes(alloc, number, line)?;
    check_sum(number, &bytes)?;
    let record = record_in(alloc, &bytes)?;
    if record.kind > 5 {
        return Err(HexFault::BadType {
            line: number,
            kind: record.kind,
        });
    }
    if record.has_bad_payload() {
        return Err(HexFault::BadLength(number));
    }
    if record.is_out_of_range() {
        return Err(HexFault::OutOfRange(number));
    }
    Ok(record)
}
