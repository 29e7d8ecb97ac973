// Laws of glue. Each is the contract of a function that does nothing.

ghost use Rattle.std.specs.Prelude.{ℕ, Bool, List as Items};
ghost use Rattle.code_items.specs.declared.items.Item.{Item as AnyItem};
ghost use Rattle.glue_steps.specs.Choices.{FlagTest};
ghost use Rattle.glue_steps.specs.Laws.{ArrivesBehind, BoundaryTold, FlagBehind, FlagsStay, Glue, GoesOn, IntconTold, JumpTold, LineInRange, LineLeaves, LinesStand, Longer, OneThenOther, SkipTold, Straight, TestsTold, WorkTold};
ghost use Rattle.glue_steps.specs.Stretches.{BankBits};
ghost use Rattle.glue_steps.specs.declared.lines.Line.{Line as AnyLine};
ghost use Rattle.code_steps.specs.Laws.{Piece};
ghost use Rattle.pic_isa.specs.declared.instructions.Instr.{Instr as AnyInstr};
ghost use Rattle.pic_isa.specs.declared.sources.Source.{Source as AnySource};
ghost use Rattle.pic_machine.specs.Boundary.{Outer};
ghost use Rattle.pic_machine.specs.Chip.{Chip};
ghost use Rattle.pic_machine.specs.Results.{Done};
ghost use Rattle.pic_machine.specs.declared.steps.PortWrite.{PortWrite as AnyPut};

/// Code that comes to something within some steps comes to it within more.
pub fn may_take_longer()
    ensures { (program : ℕ → ℕ) (glue : Glue) (test : Chip → Bool) (puts : Items AnyPut) (k m : ℕ) (c : Chip) → Longer program glue test puts k m c }
{}

/// Where sources have arrived and pins have changed, code goes on as from the chip before.
pub fn goes_on_after_arrivals()
    ensures { (program : ℕ → ℕ) (glue : Glue) (test : Chip → Bool) (puts : Items AnyPut) (k : ℕ) (c d : Chip) → GoesOn program glue test puts k c d }
{}

/// One piece of code after another puts its bytes behind those of the first.
pub fn one_after_the_other()
    ensures { (program : ℕ → ℕ) (glue : Glue) (first second : Chip → Bool) (puts later : Items AnyPut) (k m : ℕ) (c : Chip)
        → OneThenOther program glue first second puts later k m c }
{}

/// At a boundary where none is due and GIE is clear, code takes its own step, whether an interrupt is late or not.
pub fn takes_its_own_step()
    ensures { (program : ℕ → ℕ) (glue : Glue) (test : Chip → Bool) (puts : Items AnyPut) (k : ℕ) (c : Chip) (outer : Outer)
        → BoundaryTold program glue test puts k c outer }
{}

/// A line whose register is reached leaves what it did.
pub fn line_leaves()
    ensures { (known : BankBits) (line : AnyLine) (c : Chip) → LineLeaves known line c }
{}

/// Arrivals before a line are arrivals behind it.
pub fn arrives_behind()
    ensures { (line : AnyLine) (c d : Chip) → ArrivesBehind line c d }
{}

/// A line clears the flag of a source alone that it is told to clear, and sets none.
pub fn clears_one_flag()
    ensures { (line : AnyLine) (source : AnySource) (c : Chip) → FlagBehind line source c }
{}

/// Lines that stand from the program counter on come to what they leave, and put what they put, whatever arrives on the way.
pub fn straight_on()
    ensures { (program : ℕ → ℕ) (glue : Glue) (test : Chip → Bool) (known : BankBits) (p : ℕ) (lines : Items AnyLine) (c : Chip)
        → Straight program glue test known p lines c }
{}

/// Lines that stand as items before others stand as instructions, and the others behind them.
pub fn lines_stand()
    ensures { (paged : Bool) (program marks : ℕ → ℕ) (p q : ℕ) (known : BankBits) (lines : Items AnyLine) (items : Items AnyItem)
        → LinesStand paged program marks p q known lines items }
{}

/// The fields of the instruction of a line are in range where its constant and its bit are.
pub fn fields_are_in_range()
    ensures { (line : AnyLine) → LineInRange line }
{}

/// A step of glue changes no flag, and leaves GIE clear.
pub fn keeps_flags()
    ensures { (program : ℕ → ℕ) (glue : Glue) (source : AnySource) (d : Chip) (done : Done) → FlagsStay program glue source d done }
{}

/// A jump leads to its mark, on any page, whatever arrives.
pub fn jumps_to_its_mark()
    ensures { (paged : Bool) (program marks : ℕ → ℕ) (glue : Glue) (test : Chip → Bool) (p q m : ℕ) (items : Items AnyItem) (later : Items AnyPut) (k : ℕ) (c : Chip)
        → JumpTold paged program marks glue test p q m items later k c }
{}

/// A skip instruction with a jump behind it leads past both, or to the mark, as its test says on the chip that it meets.
pub fn skips_or_jumps()
    ensures { (paged : Bool) (program marks : ℕ → ℕ) (glue : Glue) (test skip : Chip → Bool) (p q m : ℕ) (i : AnyInstr) (items : Items AnyItem)
        (later : Items AnyPut) (k : ℕ) (c : Chip) → SkipTold paged program marks glue test skip p q m i items later k c }
{}

/// Work whose code comes to something over arrivals comes to it as glue, where GIE is clear.
pub fn work_is_told()
    ensures { (program : ℕ → ℕ) (piece : Piece) (test : Chip → Bool) (k : ℕ) (c : Chip) → WorkTold program piece test k c }
{}

/// MOVF of INTCON to W leaves there INTCON's bits, but for flags that may have come.
pub fn reads_enables()
    ensures { (program : ℕ → ℕ) (glue : Glue) (test : Chip → Bool) (p : ℕ) (later : Items AnyPut) (k : ℕ) (c : Chip) → IntconTold program glue test p later k c }
{}

/// Tests of flags come to the mark of the first one whose flag is found set, or past all of them.
pub fn tests_choose()
    ensures { (paged : Bool) (program marks : ℕ → ℕ) (glue : Glue) (test : Chip → Bool) (ts : Items FlagTest) (p q : ℕ) (items : Items AnyItem)
        (later : Items AnyPut) (k : ℕ) (c : Chip) → TestsTold paged program marks glue test ts p q items later k c }
{}
