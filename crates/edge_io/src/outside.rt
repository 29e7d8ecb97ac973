// The traits of the outside: files with names, and a sink.
ghost use Rattle.std.specs.Prelude.{◌≡◌, ◌≤◌, IfOk, IsErrOf, length};
ghost use Rattle.edge_io.specs.Files.{FilesSeen, KeepsFiles, ReadGives, WriteLeaves};
ghost use Rattle.edge_io.specs.Sinks.{SinkSeen, PutLeaves};
ghost use Rattle.edge_io.specs.Counts.{Rose};

use crate::faults::{PutFault, ReadFault, WriteFault};
use frp_tree::List;
use std::alloc::Global;

/// The longest file that is read, in bytes.
pub const LONGEST_FILE: usize = 1_048_576;

/// Files with names. An object tells which files it holds, or doesn't; no call changes that.
pub trait Files {
    /// The files that are held, where the object tells them, and how many reads and writes failed so far.
    ghost seen: { Self → FilesSeen };

    /// The bytes of the file with this name.
    fn read(&mut self, alloc: Global, name: &str) -> Result<List<u8>, ReadFault>
        // The file's bytes, or why there are none.
        ensures answer { ReadGives (seen self.old) name.now result }
        ensures short { IfOk result (λ bytes. length bytes ≤ LONGEST_FILE) }
        ensures failed { IsErrOf result ReadFault.Failed → Rose (seen self.old).read_faults (seen self.new).read_faults }
        // No file changes, and no count falls.
        ensures unchanged { KeepsFiles (seen self.old) (seen self.new) }
        ensures read_count { (seen self.old).read_faults ≤ (seen self.new).read_faults }
        ensures write_count { (seen self.old).write_faults ≤ (seen self.new).write_faults };

    /// Leaves exactly these bytes under the name, and all other files as they were.
    fn write(&mut self, alloc: Global, name: &str, bytes: &[u8]) -> Result<(), WriteFault>
        ensures files { WriteLeaves (seen self.old) (seen self.new) name.now bytes.now result }
        ensures failed { IsErrOf result WriteFault.Failed → Rose (seen self.old).write_faults (seen self.new).write_faults }
        ensures read_count { (seen self.old).read_faults ≤ (seen self.new).read_faults }
        ensures write_count { (seen self.old).write_faults ≤ (seen self.new).write_faults };
}

/// Where text is put. An object tells which bytes it has taken, or doesn't; no call changes that.
pub trait Sink {
    /// The bytes that were taken, where the object tells them, and how many puts failed so far.
    ghost seen: { Self → SinkSeen };

    /// Adds these bytes at the end.
    fn put(&mut self, alloc: Global, bytes: &[u8]) -> Result<(), PutFault>
        ensures taken { PutLeaves (seen self.old) (seen self.new) bytes.now result }
        ensures failed { IsErrOf result PutFault.Failed → Rose (seen self.old).put_faults (seen self.new).put_faults }
        ensures count { (seen self.old).put_faults ≤ (seen self.new).put_faults };
}
