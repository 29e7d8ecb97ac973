// Laws of deeds and enables. Each is the contract of a function that does nothing.
ghost use Rattle.std.specs.Prelude.{ℕ, List as Items};
ghost use Rattle.frp_tree.specs.Tree.{ProgramTree};
ghost use Rattle.pic_regs.specs.Registers.{Registers};
ghost use Rattle.bank_alloc.specs.declared.needs.Needs.{Needs as AnyNeeds};
ghost use Rattle.priority_masks.specs.declared.tables.Enables.{Enables as AnyEnables};
ghost use Rattle.code_steps.specs.declared.banks.Bank.{Bank as AnyBank};
ghost use Rattle.glue_parts.specs.declared.spread.Context.{Context as AnyContext};
ghost use Rattle.scratch_commit.specs.declared.kinds.Kind.{Kind as AnyKind};
ghost use Rattle.scratch_commit.specs.declared.masks.Heard.{Heard as AnyHeard};
ghost use Rattle.scratch_commit.specs.Deeds.{Deed};
ghost use Rattle.scratch_commit.specs.Laws.{ConstantsAgree, DeedsMake, HeardOnce, MasksLead, Unmasks};

/// Deeds that are glue leave what they are to, in whatever bank is known.
pub fn deeds_make()
    ensures { (bank : AnyBank) (deeds : Items Deed) → DeedsMake bank deeds }
{}

/// What is heard at a level is determined.
pub fn heard_once()
    ensures { (p : ProgramTree) (level : ℕ) (e f : AnyEnables) → HeardOnce p level e f }
{}

/// Masks lead from the enables of a lower level to those of the run's.
pub fn masks_lead()
    ensures { (p : ProgramTree) (low level : ℕ) (heard : AnyHeard) (other : AnyEnables) (r : Registers) → MasksLead p low level heard other r }
{}

/// Unmasking leaves exactly the enables that masks met.
pub fn unmasks()
    ensures { (p : ProgramTree) (low level : ℕ) (heard : AnyHeard) (other : AnyEnables) (kind : AnyKind) (need : AnyNeeds) (context : AnyContext) (r s : Registers)
        → Unmasks p low level heard other kind need context r s }
{}

/// Where a constant stands for what was saved, all lower levels agree in it.
pub fn constants_agree()
    ensures { (p : ProgramTree) (low level : ℕ) (heard : AnyHeard) (other : AnyEnables) → ConstantsAgree p low level heard other }
{}
