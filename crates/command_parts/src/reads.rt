// A file is read, or there is one of three faults.
ghost use Rattle.std.specs.Prelude.{◌≤◌};
ghost use Rattle.edge_io.specs.Files.{KeepsFiles};
ghost use Rattle.command_parts.specs.Endings.{Gives};
ghost use Rattle.command_parts.specs.Reads.{IsInput, IsUnread, unread_status, unread_line};

use crate::halts::Halt;
use crate::says::{MISSING, READ_FAILED, REFUSED, line_with_name};
use edge_io::{Files, ReadFault};
use frp_tree::{List as Bytes, Text};
use std::alloc::Global;

/// The bytes of a file.
pub fn input<F: Files>(alloc: Global, name: &Text, files: &mut F) -> Result<Bytes<u8>, Halt>
    ensures gives { Gives (IsInput name.now (F.seen files.old)) (IsUnread name.now (F.seen files.old) (F.seen files.new)) unread_status (unread_line name.now) result }
    ensures unchanged { KeepsFiles (F.seen files.old) (F.seen files.new) }
    ensures read_count { (F.seen files.old).read_faults ≤ (F.seen files.new).read_faults }
    ensures write_count { (F.seen files.old).write_faults ≤ (F.seen files.new).write_faults }
{
    let (status, words) = match files.read(alloc, name.as_str()) {
        Ok(bytes) => return Ok(bytes),
        Err(ReadFault::Missing) => (MISSING, "missing: "),
        Err(ReadFault::Failed) => (READ_FAILED, "read failed: "),
        Err(ReadFault::TooLong) => (REFUSED, "refused: long "),
        Err(ReadFault::Memory) => return Err(Halt::Memory),
    };
    let line = line_with_name(alloc, words, name)?;
    Err(Halt::Said { status, line })
}
