// Files in memory that fail where they are told to.
ghost use Rattle.std.specs.Prelude.{◌≡◌, ◌≤◌, ◌↔◌, [], OnOk, OnErr, IfOk, IsErrOf, Contains, length};
ghost use Rattle.std.specs.Option.{option_copied};
ghost use Rattle.edge_io.specs.Counts.{Rose};
ghost use Rattle.edge_io.specs.Files.{KeepsFiles, ReadGives, Replaces, WriteLeaves};
ghost use Rattle.edge_io.specs.Memory.{held, seen_in_memory, IsReadable, after_read, after_write};

use crate::calls::Calls;
use crate::faults::{ReadFault, WriteFault};
use crate::named_files::{NamedFiles, copied};
use crate::outside::{Files, LONGEST_FILE};
use frp_tree::List;
use std::alloc::{AllocError, Global};
use std::marker::Model;

/// Files in memory that fail at the calls that they are told to. The calls of `read` and `write` are
/// numbered from 0, together; after 2^64 - 1 calls the number stays.
#[derive(Debug, Drop)]
pub struct MemFiles {
    files: NamedFiles,
    calls: Calls,
    read_faults: u64,
    write_faults: u64,
}

impl Model for MemFiles {
    ghost use Rattle.edge_io.specs.Memory.{FilesInMemory};

    ghost Value = { FilesInMemory };

    ghost view = { λ m. record {
      files = m.files;
      fails = m.calls.fails;
      calls = m.calls.next;
      read_faults = m.read_faults;
      write_faults = m.write_faults;
    } };
}

impl MemFiles {
    /// No files. The calls with these numbers will fail. Takes no memory.
    pub fn new(alloc: Global, fails: List<u32>) -> MemFiles
        ensures { result ≡ record { files = []; fails = fails; calls = 0; read_faults = 0; write_faults = 0 } }
    {
        MemFiles {
            files: NamedFiles::new(alloc),
            calls: Calls { fails, next: 0 },
            read_faults: 0,
            write_faults: 0,
        }
    }

    /// Leaves exactly these bytes under the name, and all other files as they were. This call has no
    /// number. An `Err` says that memory ran out.
    pub fn place(&mut self, alloc: Global, name: &str, bytes: &[u8]) -> Result<(), AllocError>
        ensures ok { OnOk result (Replaces (held self.old.files) (held self.new.files) name.now bytes.now) }
        ensures after { self.new ≡ record self.old { files = self.new.files } }
        ensures err { OnErr result (self.new ≡ self.old) }
    {
        self.files.place(alloc, name, bytes)
    }

    /// The bytes of the file with this name, and None exactly where there is none. Takes no memory.
    pub fn file(&self, name: &str) -> Option<&[u8]>
        ensures { option_copied result ≡ held self.now.files name.now }
    {
        self.files.file(name)
    }
}

impl Files for MemFiles {
    ghost seen = { seen_in_memory };

    /// A name that isn't held is `Missing` and a file that is too long `TooLong`, also at a number that
    /// fails, and without a count.
    fn read(&mut self, alloc: Global, name: &str) -> Result<List<u8>, ReadFault>
        ensures answer { ReadGives (seen_in_memory self.old) name.now result }
        ensures short { IfOk result (λ bytes. length bytes ≤ LONGEST_FILE) }
        ensures failed { IsErrOf result ReadFault.Failed → Rose self.old.read_faults self.new.read_faults }
        ensures unchanged { KeepsFiles (seen_in_memory self.old) (seen_in_memory self.new) }
        ensures read_count { self.old.read_faults ≤ self.new.read_faults }
        ensures write_count { self.old.write_faults ≤ self.new.write_faults }
        // It fails exactly at its numbers, where there is a file that can be read.
        ensures fails { IsErrOf result ReadFault.Failed
            ↔ (Contains self.old.fails self.old.calls × IsReadable (held self.old.files name.now)) }
        ensures after { self.new ≡ after_read self.old result }
    {
        let fails = self.calls.next_fails();
        let bytes = self.files.short_file(name)?;
        if fails {
            self.read_faults = self.read_faults.saturating_add(1);
            return Err(ReadFault::Failed);
        }
        Ok(copied(alloc, bytes)?)
    }

    /// At a number that fails no file changes.
    fn write(&mut self, alloc: Global, name: &str, bytes: &[u8]) -> Result<(), WriteFault>
        ensures files { WriteLeaves (seen_in_memory self.old) (seen_in_memory self.new) name.now bytes.now result }
        ensures failed { IsErrOf result WriteFault.Failed → Rose self.old.write_faults self.new.write_faults }
        ensures read_count { self.old.read_faults ≤ self.new.read_faults }
        ensures write_count { self.old.write_faults ≤ self.new.write_faults }
        // It fails exactly at its numbers.
        ensures fails { IsErrOf result WriteFault.Failed ↔ Contains self.old.fails self.old.calls }
        ensures after { self.new ≡ after_write self.old self.new.files result }
    {
        if self.calls.next_fails() {
            self.write_faults = self.write_faults.saturating_add(1);
            return Err(WriteFault::Failed);
        }
        Ok(self.files.place(alloc, name, bytes)?)
    }
}
