// A file is written, or the write failed.
ghost use Rattle.std.specs.Prelude.{◌≤◌};
ghost use Rattle.frp_tool.specs.Writes.{Stores};

use command_parts::{Halt, OUTSIDE_FAILED, line_with_name};
use edge_io::{Files, WriteFault};
use frp_tree::Text;
use std::alloc::Global;

/// Leaves these bytes under the name.
pub fn store<F: Files>(alloc: Global, name: &Text, bytes: &[u8], files: &mut F) -> Result<(), Halt>
    ensures stores { Stores (F.seen files.old) (F.seen files.new) name.now bytes.now result }
    ensures read_count { (F.seen files.old).read_faults ≤ (F.seen files.new).read_faults }
    ensures write_count { (F.seen files.old).write_faults ≤ (F.seen files.new).write_faults }
{
    match files.write(alloc, name.as_str(), bytes) {
        Ok(()) => Ok(()),
        Err(WriteFault::Failed) => Err(Halt::Said {
            status: OUTSIDE_FAILED,
            line: line_with_name(alloc, "write failed: ", name)?,
        }),
        Err(WriteFault::Memory) => Err(Halt::Memory),
    }
}
