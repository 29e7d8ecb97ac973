// What holds of every plan, as the contract of a function that does nothing.
ghost use Rattle.frp_tree.specs.Tree.{ProgramTree};
ghost use Rattle.two_phase.specs.Laws.{PlansGive};

/// On an event on which no definition depends on itself, each assignment of a plan gives what the event means: a value on the
/// event, or a new state.
pub fn plans_give()
    ensures { (p : ProgramTree) → PlansGive p }
{}
