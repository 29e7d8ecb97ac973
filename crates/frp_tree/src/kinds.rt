// What a program may have too many of.
ghost use Rattle.std.specs.Prelude.{◌≡◌};
ghost use Rattle.frp_tree.specs.Limits.{most};

use crate::limits;

/// What a program may have too many of. The nodes are those of all expressions together. The entries are those of all
/// tables together, or of one.
#[derive(Clone, Copy, Debug, PartialEq, Eq)]
pub enum Kind {
    Events,
    Setups,
    Definitions,
    Outputs,
    Nodes,
    Entries,
}

impl Kind {
    /// How many of this kind a program may have. Takes no memory.
    pub fn most(self) -> u32
        ensures { result ≡ most self }
    {
        match self {
            Kind::Events => limits::MOST_EVENTS,
            Kind::Setups => limits::MOST_SETUPS,
            Kind::Definitions => limits::MOST_DEFINITIONS,
            Kind::Outputs => limits::MOST_OUTPUTS,
            Kind::Nodes => limits::MOST_NODES,
            Kind::Entries => limits::MOST_ENTRIES,
        }
    }
}
