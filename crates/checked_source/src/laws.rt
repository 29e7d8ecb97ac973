// What is true of the checks' faults, as a contract of a function that does nothing.
ghost use Rattle.frp_tree.specs.Tree.{ProgramTree};
ghost use Rattle.checked_source.specs.Laws.{PassesExactly};

/// A program passes the checks exactly where it has no first fault.
pub fn passes_exactly()
    ensures { (p : ProgramTree) → PassesExactly p }
{}
