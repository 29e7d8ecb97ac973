// Laws of the vector. Each is the contract of a function that does nothing.
ghost use Rattle.std.specs.Prelude.{ℕ, Bool, List as Items};
ghost use Rattle.frp_tree.specs.Tree.{ProgramTree};
ghost use Rattle.bank_alloc.specs.declared.needs.Needs.{Needs as AnyNeeds};
ghost use Rattle.efrp_meaning.specs.Meaning.{State as AnyState};
ghost use Rattle.isr_vector.specs.Laws.{BootIsShort, BootMakes, StateHasBytes};
ghost use Rattle.priority_masks.specs.declared.tables.Enables.{Enables as AnyEnables};
ghost use Rattle.isr_vector.specs.Urgency.{AllAreEvents, FirstIsBest};

/// The first event of the order for which a test holds comes before each other one for which it holds.
pub fn first_is_best()
    ensures { (p : ProgramTree) (test : ℕ → Bool) (before : Items ℕ) (event : ℕ) (behind : Items ℕ) → FirstIsBest p test before event behind }
{}

/// All that stand in the order are events of the program.
pub fn all_are_events()
    ensures { (p : ProgramTree) → AllAreEvents p }
{}

/// The lines of the boot have its effect, begun in bank 0, and end in bank 0.
pub fn boot_makes()
    ensures { (p : ProgramTree) (need : AnyNeeds) (enables : AnyEnables) → BootMakes p need enables }
{}

/// They are as few as the bound on the boot says.
pub fn boot_is_short()
    ensures { (p : ProgramTree) (need : AnyNeeds) (enables : AnyEnables) → BootIsShort p need enables }
{}

/// A state has as many bytes as its program's states.
pub fn state_has_bytes()
    ensures { (p : ProgramTree) (s : AnyState) → StateHasBytes p s }
{}
