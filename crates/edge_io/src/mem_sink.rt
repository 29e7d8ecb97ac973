// A sink in memory that fails where it is told to.
ghost use Rattle.std.specs.Prelude.{◌≡◌, ◌≤◌, ◌↔◌, [], IsErrOf, Contains};
ghost use Rattle.edge_io.specs.Counts.{Rose};
ghost use Rattle.edge_io.specs.Sinks.{PutLeaves};
ghost use Rattle.edge_io.specs.Memory.{after_put, seen_by_sink};

use crate::calls::Calls;
use crate::faults::PutFault;
use crate::outside::Sink;
use frp_tree::List;
use std::alloc::Global;
use std::marker::Model;

/// A sink in memory that fails at the calls that it is told to. The calls of `put` are numbered from 0;
/// after 2^64 - 1 calls the number stays.
#[derive(Debug, Drop)]
pub struct MemSink {
    taken: Vec<u8>,
    calls: Calls,
    put_faults: u64,
}

impl Model for MemSink {
    ghost use Rattle.edge_io.specs.Memory.{SinkInMemory};

    ghost Value = { SinkInMemory };

    ghost view = { λ s. record {
      taken = s.taken.items;
      fails = s.calls.fails;
      calls = s.calls.next;
      put_faults = s.put_faults;
    } };
}

impl MemSink {
    /// A sink with no bytes, of which the puts with these numbers will fail. Takes no memory.
    pub fn new(alloc: Global, fails: List<u32>) -> MemSink
        ensures { result ≡ record { taken = []; fails = fails; calls = 0; put_faults = 0 } }
    {
        MemSink {
            taken: Vec::new(alloc),
            calls: Calls { fails, next: 0 },
            put_faults: 0,
        }
    }

    /// The bytes that were taken, in order. Takes no memory.
    pub fn taken(&self) -> &[u8]
        ensures { result.now ≡ self.now.taken }
    {
        self.taken.as_slice()
    }
}

impl Sink for MemSink {
    ghost seen = { seen_by_sink };

    fn put(&mut self, _alloc: Global, bytes: &[u8]) -> Result<(), PutFault>
        ensures taken { PutLeaves (seen_by_sink self.old) (seen_by_sink self.new) bytes.now result }
        ensures failed { IsErrOf result PutFault.Failed → Rose self.old.put_faults self.new.put_faults }
        ensures count { self.old.put_faults ≤ self.new.put_faults }
        // It fails exactly at its numbers, and takes nothing then.
        ensures fails { IsErrOf result PutFault.Failed ↔ Contains self.old.fails self.old.calls }
        ensures after { self.new ≡ after_put self.old bytes.now result }
    {
        if self.calls.next_fails() {
            self.put_faults = self.put_faults.saturating_add(1);
            return Err(PutFault::Failed);
        }
        Ok(self.taken.extend_from_slice(bytes)?)
    }
}
