// The pass over what the tokens begin: the first that is one too many.
ghost use Rattle.std.specs.Prelude.{◌≡◌, ◌+◌, ◌≤◌, ℕ, MatchOption, cond};
ghost use Rattle.frp_tree.specs.declared.kinds.Kind.{Kind as Kinds};
ghost use Rattle.frp_tree.specs.Cells.{is_kind};
ghost use Rattle.frp_tree.specs.Limits.{most};
ghost use Rattle.efrp_syntax.specs.Programs.{counted, HasFew, IsFirstTooManyAt};

use crate::begun::Begun;
use frp_tree::Kind;
use frp_tree::limits::MOST_ENTRIES_OF_A_TABLE;

/// How many of each kind there are so far.
#[derive(Clone, Copy, Debug, PartialEq, Eq)]
struct Counts {
    events: u32,
    setups: u32,
    definitions: u32,
    outputs: u32,
    nodes: u32,
    entries: u32,
}

/// None of any kind.
const NONE: Counts = Counts {
    events: 0,
    setups: 0,
    definitions: 0,
    outputs: 0,
    nodes: 0,
    entries: 0,
};

impl Counts {
    /// How many there are of this kind.
    fn of(self, kind: Kind) -> u32
        ensures { result ≡ counted kind self }
    {
        match kind {
            Kind::Events => self.events,
            Kind::Setups => self.setups,
            Kind::Definitions => self.definitions,
            Kind::Outputs => self.outputs,
            Kind::Nodes => self.nodes,
            Kind::Entries => self.entries,
        }
    }

    /// One more of this kind.
    fn and(self, kind: Kind) -> Counts
        requires { counted kind self ≤ most kind }
        ensures { (other : Kinds) → counted other result ≡ counted other self + cond (is_kind other kind) 1 0 }
    {
        let mut counts = self;
        match kind {
            Kind::Events => counts.events += 1,
            Kind::Setups => counts.setups += 1,
            Kind::Definitions => counts.definitions += 1,
            Kind::Outputs => counts.outputs += 1,
            Kind::Nodes => counts.nodes += 1,
            Kind::Entries => counts.entries += 1,
        }
        counts
    }
}

/// The place, from 0 on, and the kind of the first that is one too many of its kind in a program, or an entry too many for
/// its table. The time is linear, and it takes no memory.
pub fn one_too_many(begun: &[Begun]) -> Option<(usize, Kind)>
    ensures { MatchOption result (HasFew begun.now) (λ found. IsFirstTooManyAt begun.now found.0 found.1) }
{
    let mut counts = NONE;
    for (place, note) in begun.iter().enumerate() {
        if let Some(kind) = note.kind {
            counts = counts.and(kind);
            if counts.of(kind) > kind.most() || note.entry > MOST_ENTRIES_OF_A_TABLE as usize {
                return Some((place, kind));
            }
        }
    }
    None
}
