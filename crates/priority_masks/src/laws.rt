// Laws on levels, as the contract of a function that does nothing.
ghost use Rattle.frp_tree.specs.Tree.{ProgramTree};
ghost use Rattle.priority_masks.specs.Laws.{LevelsRise};

/// Levels rise with priorities, from 1 to the number of distinct priorities and without a gap, and events of one priority have
/// one level.
pub fn levels_rise()
    ensures { (p : ProgramTree) → LevelsRise p }
{}
