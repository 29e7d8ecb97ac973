// How far firmware is spread, and what a taking has to save for that.

ghost use Rattle.std.specs.Prelude.{◌≡◌, ◌<◌, ◌&&◌, nat_lt};
ghost use Rattle.frp_tree.specs.Tree.{ProgramTree};
ghost use Rattle.efrp_meaning.specs.Bounds.{levels as levels_of};
ghost use Rattle.priority_masks.specs.Levels.{AreLevelsOf};

use priority_masks::Levels;

/// Whether some cell lies outside bank 0, so that work may leave bank 0; and whether code lies on several pages, so that it has
/// page settings.
#[derive(Clone, Copy, Debug, PartialEq, Eq)]
pub struct Spread {
    pub banks: bool,
    pub pages: bool,
}

/// The registers of what is interrupted that a taking saves, since they can differ where it goes on.
#[derive(Clone, Copy, Debug, PartialEq, Eq)]
pub struct Context {
    pub status: bool,
    pub pclath: bool,
}

impl Spread {
    /// What a taking saves: the bank bits where work may leave bank 0, and PCLATH where there are page settings. Firmware of one
    /// level saves nothing, since nothing but the ready address is interrupted. Takes no memory.
    pub fn context(self, levels: &Levels) -> Context
        ensures status { (p : ProgramTree) → AreLevelsOf p levels.now → result.status ≡ (nat_lt 1 (levels_of p) && self.banks) }
        ensures pclath { (p : ProgramTree) → AreLevelsOf p levels.now → result.pclath ≡ (nat_lt 1 (levels_of p) && self.pages) }
    {
        let several = levels.count() > 1;
        Context {
            status: several && self.banks,
            pclath: several && self.pages,
        }
    }
}
