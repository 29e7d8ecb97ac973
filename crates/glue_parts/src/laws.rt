// Laws of the parts of glue. Each is the contract of a function that does nothing.
ghost use Rattle.std.specs.Prelude.{ℕ, Bool, List as Items};
ghost use Rattle.pic_isa.specs.declared.sources.Source.{Source as AnySource};
ghost use Rattle.pic_regs.specs.declared.places.Place.{Place as AnyPlace};
ghost use Rattle.bank_alloc.specs.declared.needs.Needs.{Needs as AnyNeeds};
ghost use Rattle.code_steps.specs.declared.banks.Bank.{Bank as AnyBank};
ghost use Rattle.glue_steps.specs.declared.lines.Line.{Line as AnyLine};
ghost use Rattle.glue_steps.specs.Stretches.{BankBits};
ghost use Rattle.glue_parts.specs.Effects.{Effect};
ghost use Rattle.glue_parts.specs.Laws.{BlindBoth, Changes, Chooses, Copies, FrameIsNoCell, FrameLies, FramesDiffer, Lowers, MakesBit, MakesBoth, MarksDiffer, Writes};
ghost use Rattle.glue_parts.specs.Marks.{Spot};

/// Two places of the firmware with one mark are one place.
pub fn marks_differ()
    ensures { (a b : Spot) → MarksDiffer a b }
{}

/// A byte of a frame has a place, in bank 0 where the level is at most 8.
pub fn frame_lies()
    ensures { (need : AnyNeeds) (level byte : ℕ) → FrameLies need level byte }
{}

/// Bytes of frames have places of their own.
pub fn frames_differ()
    ensures { (need : AnyNeeds) (level other byte more : ℕ) → FramesDiffer need level other byte more }
{}

/// No byte of a frame is one of states or scratch.
pub fn frame_is_no_cell()
    ensures { (need : AnyNeeds) (level byte cell : ℕ) → FrameIsNoCell need level byte cell }
{}

/// Lines one after another have one effect after the other.
pub fn makes_both()
    ensures { (known middle behind : BankBits) (e f : Effect) (xs ys : Items AnyLine) → MakesBoth known middle behind e f xs ys }
{}

/// So do their effects leave STATUS alone, if each does.
pub fn blind_both()
    ensures { (e f : Effect) → BlindBoth e f }
{}

/// The choice of a bank leaves nothing but the bank.
pub fn chooses()
    ensures { (bank : AnyBank) (k : ℕ) → Chooses bank k }
{}

/// A write leaves the byte in the register.
pub fn writes()
    ensures { (bank : AnyBank) (p : AnyPlace) (byte : ℕ) → Writes bank p byte }
{}

/// A copy leaves what one register held in the other.
pub fn copies()
    ensures { (bank : AnyBank) (from to : AnyPlace) → Copies bank from to }
{}

/// A bit is made what is given.
pub fn makes_bit()
    ensures { (known : BankBits) (p : AnyPlace) (b : ℕ) (v : Bool) → MakesBit known p b v }
{}

/// A change leaves the bit or the byte.
pub fn changes()
    ensures { (bank : AnyBank) (p : AnyPlace) (changing byte : ℕ) → Changes bank p changing byte }
{}

/// A flag is cleared.
pub fn lowers()
    ensures { (bank : AnyBank) (source : AnySource) → Lowers bank source }
{}
