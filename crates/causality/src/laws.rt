// What is true of cycles, as a contract of a function that does nothing.
ghost use Rattle.frp_tree.specs.Tree.{ProgramTree};
ghost use Rattle.causality.specs.Laws.{CycleIsFirst};

/// A program with a first cycle isn't causal, and it has no other first cycle.
pub fn cycle_is_first()
    ensures { (p : ProgramTree) → CycleIsFirst p }
{}
