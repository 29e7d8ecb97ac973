// A sink in memory that never fails.
ghost use Rattle.std.specs.Prelude.{◌≡◌, []};
ghost use Rattle.edge_io.specs.Memory.{seen_by_sure_sink};

use crate::faults::PutFault;
use crate::outside::Sink;
use std::alloc::Global;
use std::marker::Model;

/// A sink in memory that never fails: no put answers `Failed`.
#[derive(Debug, Drop)]
pub struct SureSink {
    taken: Vec<u8>,
}

impl Model for SureSink {
    ghost use Rattle.std.specs.Prelude.{ℕ, List};

    ghost Value = { List ℕ };

    ghost view = { λ s. s.taken.items };
}

impl SureSink {
    /// A sink with no bytes. Takes no memory.
    pub fn new(alloc: Global) -> SureSink
        ensures { result ≡ [] }
    {
        SureSink {
            taken: Vec::new(alloc),
        }
    }

    /// The bytes that were taken, in order. Takes no memory.
    pub fn taken(&self) -> &[u8]
        ensures { result.now ≡ self.now }
    {
        self.taken.as_slice()
    }
}

impl Sink for SureSink {
    ghost seen = { seen_by_sure_sink };

    fn put(&mut self, _alloc: Global, bytes: &[u8]) -> Result<(), PutFault> {
        Ok(self.taken.extend_from_slice(bytes)?)
    }
}
