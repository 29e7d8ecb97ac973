// The system's files.
ghost use Rattle.std.specs.Prelude.{◌≡◌, ◌<◌, ◌≤◌, IfOk, IfSome, IsErrOf, length};
ghost use Rattle.edge_io.specs.Counts.{Rose};
ghost use Rattle.edge_io.specs.Edge.{seen_on_disk, after_disk_read, after_disk_write};
ghost use Rattle.edge_io.specs.Files.{KeepsFiles, ReadGives, WriteLeaves};

use crate::faults::{ReadFault, WriteFault};
use crate::outside::{Files, LONGEST_FILE};
use frp_tree::List;
use std::alloc::Global;
use std::io::{BufReader, Read};
use std::marker::Model;
use std::{fs, rt};

/// The system's files, through the runtime. It doesn't tell what they hold, and counts the reads and the
/// writes that answered an `Err`.
#[derive(Drop)]
pub struct DiskFiles<'a, R: rt::Files> {
    rt: &'a R,
    read_faults: u64,
    write_faults: u64,
}

impl<'a, R: rt::Files> Model for DiskFiles<'a, R> {
    ghost use Rattle.edge_io.specs.Edge.{FaultCounts};

    ghost Value = { FaultCounts };

    ghost view = { λ d. record { read_faults = d.read_faults; write_faults = d.write_faults } };
}

impl<'a, R: rt::Files> DiskFiles<'a, R> {
    /// The files of this runtime. Takes no memory.
    pub fn new(rt: &'a R) -> DiskFiles<'a, R>
        ensures { result ≡ record { read_faults = 0; write_faults = 0 } }
    {
        DiskFiles {
            rt,
            read_faults: 0,
            write_faults: 0,
        }
    }
}

impl<'a, R: rt::Files> Files for DiskFiles<'a, R> {
    ghost seen = { seen_on_disk };

    /// `Missing` where the system finds no file of this name, and `Memory` also where the system lacks
    /// memory. Nothing past the first byte after `LONGEST_FILE` is kept.
    fn read(&mut self, alloc: Global, name: &str) -> Result<List<u8>, ReadFault>
        ensures answer { ReadGives (seen_on_disk self.old) name.now result }
        ensures short { IfOk result (λ bytes. length bytes ≤ LONGEST_FILE) }
        ensures failed { IsErrOf result ReadFault.Failed → Rose self.old.read_faults self.new.read_faults }
        ensures unchanged { KeepsFiles (seen_on_disk self.old) (seen_on_disk self.new) }
        ensures read_count { self.old.read_faults ≤ self.new.read_faults }
        ensures write_count { self.old.write_faults ≤ self.new.write_faults }
        // Each `Err` is counted.
        ensures after { self.new ≡ after_disk_read self.old result }
    {
        let answer = read_file(self.rt, alloc, name);
        if answer.is_err() {
            self.read_faults = self.read_faults.saturating_add(1);
        }
        answer
    }

    /// Whatever the system refuses is `Failed`, for the file may hold anything then.
    fn write(&mut self, _alloc: Global, name: &str, bytes: &[u8]) -> Result<(), WriteFault>
        ensures files { WriteLeaves (seen_on_disk self.old) (seen_on_disk self.new) name.now bytes.now result }
        ensures failed { IsErrOf result WriteFault.Failed → Rose self.old.write_faults self.new.write_faults }
        ensures read_count { self.old.read_faults ≤ self.new.read_faults }
        ensures write_count { self.old.write_faults ≤ self.new.write_faults }
        // Each `Err` is counted.
        ensures after { self.new ≡ after_disk_write self.old result }
    {
        match fs::write(self.rt, name, bytes) {
            Ok(()) => Ok(()),
            Err(_) => {
                self.write_faults = self.write_faults.saturating_add(1);
                Err(WriteFault::Failed)
            }
        }
    }
}

/// The bytes of a file.
fn read_file<R: rt::Files>(rt: &R, alloc: Global, name: &str) -> Result<List<u8>, ReadFault>
    ensures { IfOk result (λ bytes. length bytes ≤ LONGEST_FILE) }
{
    let file = fs::File::open(rt, name)?;
    read_all(alloc, BufReader::new(alloc, file)?)
}

/// All bytes of a reader. It stops at the first byte past `LONGEST_FILE`.
fn read_all<T: Read + Drop>(alloc: Global, reader: T) -> Result<List<u8>, ReadFault>
    ensures short { IfOk result (λ bytes. length bytes ≤ LONGEST_FILE) }
    // What a reader gives that tells its bytes.
    ensures whole { IfOk result (λ bytes. IfSome (T.remaining reader) (λ all. bytes ≡ all)) }
    ensures long { IsErrOf result ReadFault.TooLong → IfSome (T.remaining reader) (λ all. LONGEST_FILE < length all) }
{
    let mut bytes = List::new(alloc);
    for byte in reader.bytes() {
        let byte = byte?;
        if bytes.len() == LONGEST_FILE {
            return Err(ReadFault::TooLong);
        }
        bytes.push(byte)?;
    }
    Ok(bytes)
}
