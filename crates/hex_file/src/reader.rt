// The image of a file, or its first fault.
ghost use Rattle.std.specs.Prelude.{◌≡◌, ◌^◌, ◌<◌, ◌⊎◌, [], length, List as Items, IfOk, IfErr, Some, false};
ghost use Rattle.hex_file.specs.Faults.{line_fault, has_end, IsOfFirstLine, FirstFault, IsReadAs, IsRefusedFor};
ghost use Rattle.hex_file.specs.ImageOf.{HexRecord, IsImageOf};
ghost use Rattle.hex_file.specs.Tables.{IsTable, IsGivenBy, AreGiven};
ghost use Rattle.hex_file.specs.declared.images.Image.{Image as Images};
ghost use Rattle.hex_file.specs.declared.faults.HexFault.{HexFault as Faults};

use crate::faults::HexFault;
use crate::images::Image;
use crate::parsed::read_record;
use crate::tables::{empty_table, give, image};
use std::alloc::Global;
use text_parts::next_line;

/// Gives the bytes of a line that isn't empty and stands before an end record, and says whether it is one.
fn give_line(
    alloc: Global,
    number: u32,
    line: &[u8],
    table: &mut [Option<u8>],
) -> Result<bool, HexFault>
    requires filled { 0 < length line.now }
    requires size { length table.old ≡ 0x10000 }
    ensures given { (records : Items HexRecord) → IsTable records table.old
        → IfOk result (λ ended. IsGivenBy records line.now table.new ended) }
    ensures fault { (records : Items HexRecord) → IsTable records table.old → has_end records ≡ false
        → IfErr result (λ fault. (fault ≡ HexFault.Memory) ⊎ (line_fault records number line.now ≡ Some fault)) }
{
    let source = read_record(alloc, number, line)?;
    give(number, &source, table)?;
    Ok(source.kind == 1)
}

/// Gives the bytes of all lines, and says whether there is an end record.
fn give_lines(alloc: Global, bytes: &[u8], table: &mut [Option<u8>]) -> Result<bool, HexFault>
    requires few { length bytes.now < 2 ^ 32 }
    requires empty { IsTable [] table.old }
    ensures given { IfOk result (λ ended. AreGiven bytes.now table.new ended) }
    ensures fault { IfErr result (λ fault. (fault ≡ HexFault.Memory) ⊎ IsOfFirstLine bytes.now fault) }
{
    let mut rest = bytes;
    let mut number = 0;
    let mut ended = false;
    while let Some((line, more)) = next_line(rest) {
        number += 1;
        if !line.is_empty() {
            if ended {
                return Err(HexFault::AfterEnd(number));
            }
            ended = give_line(alloc, number, line, table)?;
        }
        rest = more;
    }
    Ok(ended)
}

/// The image of a HEX file of fewer than 2^32 bytes. Records may come in any order and digits in either case; types
/// 02 and 04 have the value 0, types 03 and 05 are skipped, and the top two bits of a word are dropped. An `Err`
/// is the first fault, by lines, or `Memory`, which is out of memory. The time is linear in the file.
pub fn read(alloc: Global, bytes: &[u8]) -> Result<Image, HexFault>
    requires { length bytes.now < 2 ^ 32 }
    // The image, or the first fault.
    ensures image { IfOk result (λ image. IsImageOf bytes.now image) }
    ensures fault { IfErr result (λ fault. (fault ≡ HexFault.Memory) ⊎ FirstFault bytes.now fault) }
    // A file that has an image is read, and one that has a fault is refused with it.
    ensures complete { (image : Images) → IsImageOf bytes.now image → IsReadAs image result }
    ensures refused { (fault : Faults) → FirstFault bytes.now fault → IsRefusedFor fault result }
{
    let mut table = empty_table(alloc)?;
    if !give_lines(alloc, bytes, &mut table)? {
        return Err(HexFault::NoEnd);
    }
    Ok(image(alloc, &table)?)
}
