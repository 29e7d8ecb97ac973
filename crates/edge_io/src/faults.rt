// Why a call of the outside failed.
ghost use Rattle.std.specs.Prelude.{◌≡◌};
ghost use Rattle.std.specs.IoError.{error_kind};
ghost use Rattle.edge_io.specs.Edge.{read_fault_of};
ghost use Rattle.edge_io.specs.declared.faults.ReadFault.TheVariants as read;
ghost use Rattle.edge_io.specs.declared.faults.WriteFault.TheVariants as write;
ghost use Rattle.edge_io.specs.declared.faults.PutFault.TheVariants as put;

use std::alloc::AllocError;
use std::io;

/// Why a file wasn't read.
#[derive(Clone, Copy, Debug, PartialEq, Eq)]
pub enum ReadFault {
    /// No file has this name.
    Missing,
    /// The outside failed. The count of read faults rose.
    Failed,
    /// The file has more than `LONGEST_FILE` bytes.
    TooLong,
    /// Memory ran out.
    Memory,
}

/// Why a file wasn't written.
#[derive(Clone, Copy, Debug, PartialEq, Eq)]
pub enum WriteFault {
    /// The outside failed. The count of write faults rose.
    Failed,
    /// Memory ran out.
    Memory,
}

/// Why bytes weren't put.
#[derive(Clone, Copy, Debug, PartialEq, Eq)]
pub enum PutFault {
    /// The outside failed. The count of put faults rose.
    Failed,
    /// Memory ran out.
    Memory,
}

impl From<AllocError> for ReadFault {
    ghost from_gives = { λ _ fault. fault ≡ read.Memory };

    fn from(_error: AllocError) -> ReadFault {
        ReadFault::Memory
    }
}

/// `Missing` for `NotFound`, `Memory` for `OutOfMemory`, and `Failed` for every other kind of error.
impl From<io::Error> for ReadFault {
    ghost from_gives = { λ error fault. fault ≡ read_fault_of (error_kind error) };

    fn from(error: io::Error) -> ReadFault {
        match error.kind() {
            io::ErrorKind::NotFound => ReadFault::Missing,
            io::ErrorKind::OutOfMemory => ReadFault::Memory,
            _ => ReadFault::Failed,
        }
    }
}

impl From<AllocError> for WriteFault {
    ghost from_gives = { λ _ fault. fault ≡ write.Memory };

    fn from(_error: AllocError) -> WriteFault {
        WriteFault::Memory
    }
}

impl From<AllocError> for PutFault {
    ghost from_gives = { λ _ fault. fault ≡ put.Memory };

    fn from(_error: AllocError) -> PutFault {
        PutFault::Memory
    }
}
