// Standard output.
ghost use Rattle.std.specs.Prelude.{◌≡◌, ◌≤◌, IsErrOf, is_ok, if◌then◌else◌};
ghost use Rattle.edge_io.specs.Counts.{Rose, raised};
ghost use Rattle.edge_io.specs.Edge.{seen_at_output};
ghost use Rattle.edge_io.specs.Sinks.{PutLeaves};

use crate::faults::PutFault;
use crate::outside::Sink;
use std::alloc::Global;
use std::marker::Model;

/// Standard output, through the runtime. It doesn't tell which bytes it took, and counts the puts that
/// answered an `Err`.
#[derive(Drop)]
pub struct OutSink<'a, R: Print> {
    rt: &'a R,
    put_faults: u64,
}

impl<'a, R: Print> Model for OutSink<'a, R> {
    ghost use Rattle.std.specs.Prelude.{ℕ};

    ghost Value = { ℕ };

    ghost view = { λ s. s.put_faults };
}

impl<'a, R: Print> OutSink<'a, R> {
    /// The standard output of this runtime. Takes no memory.
    pub fn new(rt: &'a R) -> OutSink<'a, R>
        ensures { result ≡ 0 }
    {
        OutSink { rt, put_faults: 0 }
    }
}

impl<'a, R: Print> Sink for OutSink<'a, R> {
    ghost seen = { seen_at_output };

    fn put(&mut self, _alloc: Global, bytes: &[u8]) -> Result<(), PutFault>
        ensures taken { PutLeaves (seen_at_output self.old) (seen_at_output self.new) bytes.now result }
        ensures failed { IsErrOf result PutFault.Failed → Rose self.old self.new }
        ensures count { self.old ≤ self.new }
        // Each `Err` is counted.
        ensures after { self.new ≡ (if is_ok result then self.old else raised self.old) }
    {
        match self.rt.write_all(bytes) {
            Ok(()) => Ok(()),
            Err(_) => {
                self.put_faults = self.put_faults.saturating_add(1);
                Err(PutFault::Failed)
            }
        }
    }
}
