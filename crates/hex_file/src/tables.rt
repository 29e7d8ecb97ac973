// The table of the bytes that records give, and the words and bytes that it holds.
ghost use Rattle.std.specs.Prelude.{◌≡◌, ◌<◌, ◌≤◌, ◌+◌, ◌∷◌, ◌++◌, [], length, List as Items, IfOk, IfErr, OnOk, OnErr, slice_set, slice_index_or, true, false, None, Some};
ghost use Rattle.std.specs.Option.{option_map};
ghost use Rattle.hex_file.specs.Faults.{clash_at, is_other};
ghost use Rattle.hex_file.specs.ImageOf.{HexRecord};
ghost use Rattle.hex_file.specs.Tables.{
  held_record,
  IsTable,
  word_of,
  word_at,
  word_item,
  aside_at,
  aside_item,
  items_below,
};

use crate::faults::HexFault;
use crate::images::{Aside, Image, Word};
use crate::parsed::Record;
use frp_tree::List;
use std::alloc::{AllocError, Global};

/// The number of bytes that have an address.
const BYTES: usize = 0x1_0000;

/// The number of words of program memory.
const WORDS: u16 = 0x2000;

/// The word address of the configuration word.
const CONFIG: u16 = 0x2007;

/// The byte at each address, where one is given: none yet. An `Err` is out of memory.
pub fn empty_table(alloc: Global) -> Result<Vec<Option<u8>>, AllocError>
    ensures { IfOk result (λ table. IsTable [] table.items) }
{
    let mut table = Vec::with_capacity(alloc, BYTES)?;
    for _place in 0..BYTES {
        table.push(None)?;
    }
    Ok(table)
}

/// Gives the byte at an address, which is refused where another one is given.
fn give_byte(number: u32, table: &mut [Option<u8>], address: u16, byte: u8) -> Result<(), HexFault>
    requires { address < length table.old }
    ensures given { OnOk result (table.new ≡ slice_set table.old address (Some byte)) }
    ensures same { OnOk result (is_other (slice_index_or table.old address None) byte ≡ false) }
    ensures other { OnErr result (is_other (slice_index_or table.old address None) byte ≡ true) }
    ensures fault { IfErr result (λ fault. fault ≡ HexFault.Clash number address) }
{
    let place = usize::from(address);
    match table[place] {
        Some(given) if given != byte => Err(HexFault::Clash {
            line: number,
            address,
        }),
        _ => {
            table[place] = Some(byte);
            Ok(())
        }
    }
}

/// Gives the bytes of a record, where it is data.
pub fn give(number: u32, source: &Record, table: &mut [Option<u8>]) -> Result<(), HexFault>
    requires size { length table.old ≡ 0x10000 }
    requires in_range { source.now.kind ≡ 0 → source.now.address + length source.now.payload.items ≤ 0x10000 }
    ensures given { (records : Items HexRecord) → IsTable records table.old
        → OnOk result (IsTable (records ++ held_record source.now ∷ []) table.new) }
    ensures agrees { (records : Items HexRecord) → IsTable records table.old
        → OnOk result (clash_at records (held_record source.now) ≡ None) }
    ensures fault { (records : Items HexRecord) → IsTable records table.old
        → IfErr result (λ fault. option_map (λ address. HexFault.Clash number address) (clash_at records (held_record source.now)) ≡ Some fault) }
{
    if source.kind == 0 {
        for (i, byte) in source.payload.iter().enumerate() {
            give_byte(number, table, source.address + i as u16, *byte)?;
        }
    }
    Ok(())
}

/// The word at a word address up to 2007h, of whose bytes at least one is given: its low 14 bits.
fn word_at(table: &[Option<u8>], address: u16) -> Option<u16>
    requires size { length table.now ≡ 0x10000 }
    requires low { address < 0x2008 }
    ensures { result ≡ word_at table.now address }
{
    let place = 2 * usize::from(address);
    word_of(table[place], table[place + 1])
}

/// The word of two bytes, of which at least one is given: its low 14 bits. The other is FFh.
fn word_of(low: Option<u8>, high: Option<u8>) -> Option<u16>
    ensures { result ≡ word_of low high }
{
    if low.is_none() && high.is_none() {
        return None;
    }
    let word = 256 * u16::from(high.unwrap_or(0xFF)) + u16::from(low.unwrap_or(0xFF));
    Some(word % 0x4000)
}

/// The words of program memory.
fn words(alloc: Global, table: &[Option<u8>]) -> Result<List<Word>, AllocError>
    requires { length table.now ≡ 0x10000 }
    ensures { IfOk result (λ words. words ≡ items_below (word_item table.now) 0x2000) }
{
    let mut words = List::new(alloc);
    for address in 0..WORDS {
        if let Some(word) = word_at(table, address) {
            words.push(Word { address, word })?;
        }
    }
    Ok(words)
}

/// The byte at an address, where it belongs to no word.
fn aside_at(table: &[Option<u8>], address: usize) -> Option<u8>
    requires { address < length table.now }
    ensures { result ≡ aside_at table.now address }
{
    if address >= 0x4000 && address != 0x400E && address != 0x400F {
        table[address]
    } else {
        None
    }
}

/// The bytes that belong to no word.
fn aside(alloc: Global, table: &[Option<u8>]) -> Result<List<Aside>, AllocError>
    requires { length table.now ≡ 0x10000 }
    ensures { IfOk result (λ bytes. bytes ≡ items_below (aside_item table.now) 0x10000) }
{
    let mut bytes = List::new(alloc);
    for address in 0..BYTES {
        if let Some(byte) = aside_at(table, address) {
            bytes.push(Aside {
                address: address as u16,
                byte,
            })?;
        }
    }
    Ok(bytes)
}

/// The image of the bytes that are given. An `Err` is out of memory.
pub fn image(alloc: Global, table: &[Option<u8>]) -> Result<Image, AllocError>
    requires { length table.now ≡ 0x10000 }
    ensures words { IfOk result (λ image. image.words ≡ items_below (word_item table.now) 0x2000) }
    ensures config { IfOk result (λ image. image.config ≡ word_at table.now 0x2007) }
    ensures aside { IfOk result (λ image. image.aside ≡ items_below (aside_item table.now) 0x10000) }
{
    Ok(Image {
        words: words(alloc, table)?,
        config: word_at(table, CONFIG),
        aside: aside(alloc, table)?,
    })
}
