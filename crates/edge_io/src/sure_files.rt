// Files in memory that never fail.
ghost use Rattle.std.specs.Prelude.{◌≡◌, [], OnOk, OnErr};
ghost use Rattle.std.specs.Option.{option_copied};
ghost use Rattle.edge_io.specs.Files.{Replaces};
ghost use Rattle.edge_io.specs.Memory.{held, seen_surely};

use crate::faults::{ReadFault, WriteFault};
use crate::named_files::{NamedFiles, copied};
use crate::outside::Files;
use frp_tree::List;
use std::alloc::{AllocError, Global};
use std::marker::Model;

/// Files in memory that never fail: no call answers `Failed`.
#[derive(Debug, Drop)]
pub struct SureFiles {
    files: NamedFiles,
}

impl Model for SureFiles {
    ghost use Rattle.edge_io.specs.Memory.{FileList};

    ghost Value = { FileList };

    ghost view = { λ s. s.files };
}

impl SureFiles {
    /// No files. Takes no memory.
    pub fn new(alloc: Global) -> SureFiles
        ensures { result ≡ [] }
    {
        SureFiles {
            files: NamedFiles::new(alloc),
        }
    }

    /// Leaves exactly these bytes under the name, and all other files as they were. An `Err` says
    /// that memory ran out.
    pub fn place(&mut self, alloc: Global, name: &str, bytes: &[u8]) -> Result<(), AllocError>
        ensures ok { OnOk result (Replaces (held self.old) (held self.new) name.now bytes.now) }
        ensures err { OnErr result (self.new ≡ self.old) }
    {
        self.files.place(alloc, name, bytes)
    }

    /// The bytes of the file with this name, and None exactly where there is none. Takes no memory.
    pub fn file(&self, name: &str) -> Option<&[u8]>
        ensures { option_copied result ≡ held self.now name.now }
    {
        self.files.file(name)
    }
}

impl Files for SureFiles {
    ghost seen = { seen_surely };

    fn read(&mut self, alloc: Global, name: &str) -> Result<List<u8>, ReadFault> {
        let bytes = self.files.short_file(name)?;
        Ok(copied(alloc, bytes)?)
    }

    fn write(&mut self, alloc: Global, name: &str, bytes: &[u8]) -> Result<(), WriteFault> {
        Ok(self.files.place(alloc, name, bytes)?)
    }
}
