// A map from names to bytes, on which both kinds of files in memory stand.
ghost use Rattle.std.specs.Prelude.{◌≡◌, ◌≤◌, ◌⊎◌, [], Some, Err, OnOk, OnErr, IfOk, IfErr, length};
ghost use Rattle.std.specs.Option.{option_copied};
ghost use Rattle.edge_io.specs.Files.{Answers, Replaces};
ghost use Rattle.edge_io.specs.Memory.{held};

use crate::faults::ReadFault;
use crate::outside::LONGEST_FILE;
use frp_tree::List;
use std::alloc::{AllocError, Global};
use std::collections::BTreeMap;
use std::marker::Model;

/// Files with names, in memory. Contracts see the names and the bytes.
#[derive(Debug, Drop)]
pub(crate) struct NamedFiles {
    files: BTreeMap<String, Vec<u8>>,
}

impl Model for NamedFiles {
    ghost use Rattle.std.specs.Prelude.{map, string_bytes};
    ghost use Rattle.edge_io.specs.Memory.{FileList};

    ghost Value = { FileList };

    ghost view = { λ n. map (λ file. (string_bytes file.0, file.1.items)) n.files.entries };
}

impl NamedFiles {
    /// No files. Takes no memory.
    pub(crate) fn new(alloc: Global) -> NamedFiles
        ensures { result ≡ [] }
    {
        NamedFiles {
            files: BTreeMap::new(alloc),
        }
    }

    /// The bytes of the file with this name, and None exactly where there is none. Takes no memory.
    pub(crate) fn file(&self, name: &str) -> Option<&[u8]>
        ensures { option_copied result ≡ held self.now name.now }
    {
        self.files.get(name).map(|bytes| bytes.as_slice())
    }

    /// The bytes of the file with this name, where it can be read: `Missing` exactly where there is none,
    /// and `TooLong` exactly where it has more than `LONGEST_FILE` bytes. Takes no memory.
    pub(crate) fn short_file(&self, name: &str) -> Result<&[u8], ReadFault>
        ensures ok { IfOk result (λ bytes. (held self.now name.now ≡ Some bytes.now) × (length bytes.now ≤ LONGEST_FILE)) }
        ensures err { IfErr result (λ fault. Answers (held self.now name.now) (Err fault)) }
        ensures faults { IfErr result (λ fault. (fault ≡ ReadFault.Missing) ⊎ (fault ≡ ReadFault.TooLong)) }
    {
        let bytes = self.file(name).ok_or(ReadFault::Missing)?;
        if bytes.len() > LONGEST_FILE {
            return Err(ReadFault::TooLong);
        }
        Ok(bytes)
    }

    /// Leaves exactly these bytes under the name. An `Err` says that memory ran out.
    pub(crate) fn place(
        &mut self,
        alloc: Global,
        name: &str,
        bytes: &[u8],
    ) -> Result<(), AllocError>
        ensures ok { OnOk result (Replaces (held self.old) (held self.new) name.now bytes.now) }
        ensures err { OnErr result (self.new ≡ self.old) }
    {
        let key = String::from_str(alloc, name)?;
        let value = Vec::from_slice(alloc, bytes)?;
        self.files.insert(key, value)?;
        Ok(())
    }
}

/// A list of its own with these bytes. An `Err` says that memory ran out.
pub(crate) fn copied(alloc: Global, bytes: &[u8]) -> Result<List<u8>, AllocError>
    ensures { IfOk result (λ list. list ≡ bytes.now) }
{
    let mut list = List::new(alloc);
    for byte in bytes {
        list.push(*byte)?;
    }
    Ok(list)
}
