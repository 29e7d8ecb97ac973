// What the vector does. The contract of a function that does nothing.
ghost use Rattle.std.specs.Prelude.{ℕ, List as Items};
ghost use Rattle.frp_tree.specs.Tree.{ProgramTree};
ghost use Rattle.bank_alloc.specs.declared.needs.Needs.{Needs as AnyNeeds};
ghost use Rattle.glue_parts.specs.declared.spread.Spread.{Spread as AnySpread};
ghost use Rattle.firmware_parts.specs.Layout.{Layout};
ghost use Rattle.vector_steps.specs.Laws.{VectorDoes};

/// Where the vector of a program stands, the boot comes to the ready address with the program's initial state, the setups and the
/// enables of its events, and puts what the setups put; and a taking leads to the run of the most urgent event. Each does so within
/// the program's bound, in steps.
pub fn vector_does()
    ensures { (p : ProgramTree) (need : AnyNeeds) (spread : AnySpread) (l : Layout) (initial : Items ℕ) → VectorDoes p need spread l initial }
{}
