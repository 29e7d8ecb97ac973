// The numbers of the calls that are to fail.
ghost use Rattle.std.specs.Prelude.{◌≡◌, ◌↔◌, IsTrue, Contains};
ghost use Rattle.edge_io.specs.Counts.{raised};

use frp_tree::List;

/// The numbers of calls, from 0, and at which of them a call fails.
#[derive(Debug, Drop)]
pub(crate) struct Calls {
    pub(crate) fails: List<u32>,
    pub(crate) next: u64,
}

impl Calls {
    /// Takes the next number, and says whether a call of that number fails. The greatest u64 stays.
    /// Takes no memory.
    pub(crate) fn next_fails(&mut self) -> bool
        ensures fails { IsTrue result ↔ Contains self.old.fails self.old.next }
        ensures after { self.new ≡ record self.old { next = raised self.old.next } }
    {
        let number = self.next;
        self.next = number.saturating_add(1);
        self.fails
            .as_slice()
            .iter()
            .any(|n| u64::from(*n) == number)
    }
}
