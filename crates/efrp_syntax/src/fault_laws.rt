// Laws on the faults of texts. Each is the contract of a function that does nothing.
ghost use Rattle.std.specs.Prelude.{◌≡◌, ℕ, List};
ghost use Rattle.frp_tree.specs.Tree.{ProgramTree};
ghost use Rattle.frp_tree.specs.Grammar.{Spells};
ghost use Rattle.efrp_syntax.specs.Parsed.{HasFault};
ghost use Rattle.efrp_syntax.specs.declared.faults.SyntaxFault.{SyntaxFault as Faults};

/// A text has at most one fault, and none where it spells a program.
pub fn one_fault()
    ensures once { (text : List ℕ) (fault other : Faults) → HasFault text fault → HasFault text other → fault ≡ other }
    ensures none { (text : List ℕ) (p : ProgramTree) (fault : Faults) → Spells text p → HasFault text fault → ⊥ }
{}
