// Laws of acts and their code. Each is the contract of a function that does nothing.

ghost use Rattle.std.specs.Prelude.{◌≡◌, ℕ, ◌≤◌, ◌++◌, Bool, None, length, List as Items};
ghost use Rattle.code_acts.specs.Acts.{State, run};
ghost use Rattle.code_acts.specs.Codes.{code, place_of, words};
ghost use Rattle.code_acts.specs.Standing.{Placed};
ghost use Rattle.code_acts.specs.Laws.{CodeEnds, CodeLeaves, InstrsFit, ItemsStand, KeepsPclath, OthersPlaced, RunKeeps, RunLike, SetsNone, SkipsWell};
ghost use Rattle.code_acts.specs.declared.acts.Act.{Act as AnyAct};
ghost use Rattle.code_acts.specs.declared.acts.Places.{Places as AnyPlaces};
ghost use Rattle.code_steps.specs.declared.banks.Bank.{Bank as AnyBank};
ghost use Rattle.pic_isa.specs.declared.instructions.Instr.{Instr as AnyInstr};
ghost use Rattle.pic_machine.specs.Chip.{Chip};

/// The code of sound acts, wherever it stands and wherever the named bytes lie, comes to its end within as many own steps as it
/// has instructions, however whole runs of others come between, and writes only W, STATUS and the bytes that it may.
pub fn ends_anywhere()
    ensures { (uses writes : ℕ → Bool) (place : ℕ → ℕ) (bank : AnyBank) (acts : Items AnyAct) → CodeEnds uses writes place bank acts }
{}

/// Where nothing else changes W, STATUS and the bytes that it uses, the code leaves in them what the machine says.
pub fn leaves()
    ensures { (uses writes : ℕ → Bool) (place : ℕ → ℕ) (bank : AnyBank) (acts : Items AnyAct) → CodeLeaves uses writes place bank acts }
{}

/// The code of sound acts keeps PCLATH, also under whole runs of others.
pub fn keeps_pclath()
    ensures { (uses writes : ℕ → Bool) (place : ℕ → ℕ) (bank : AnyBank) (acts : Items AnyAct) (program : ℕ → ℕ) (c : Chip)
        → KeepsPclath uses writes place bank acts program c }
{}

/// With operand bytes where they are, all names lie where they can if the others do.
pub fn names_are_placed()
    ensures { (uses writes : ℕ → Bool) (places : AnyPlaces) → OthersPlaced uses writes (place_of places) → Placed uses writes (place_of places) }
{}

/// Instructions that stand as items stand in program memory.
pub fn items_stand()
    ensures { (paged : Bool) (program marks : ℕ → ℕ) (p q : ℕ) (instrs : Items AnyInstr) → ItemsStand paged program marks p q instrs }
{}

/// Code has at most so many words, wherever the named bytes lie and whatever is known of the bank.
pub fn words_at_most()
    ensures { (place : ℕ → ℕ) (bank : AnyBank) (acts : Items AnyAct) → length (code place bank acts) ≤ words None acts }
{}

/// Code in a known bank in which all names lie that need one sets and clears no bank bit, and stays in the bank.
pub fn none_set()
    ensures { (place : ℕ → ℕ) (k : ℕ) (acts : Items AnyAct) → SetsNone place k acts }
{}

/// The instructions of sound acts have all fields in range, and none of them names PCLATH.
pub fn instructions_fit()
    ensures { (uses writes : ℕ → Bool) (place : ℕ → ℕ) (bank : AnyBank) (acts : Items AnyAct) → InstrsFit uses writes place bank acts }
{}

/// The code of sound acts ends in no skip instruction, and no bank setting stands directly behind one.
pub fn skips_well()
    ensures { (uses writes : ℕ → Bool) (place : ℕ → ℕ) (bank : AnyBank) (acts : Items AnyAct) → SkipsWell uses writes place bank acts }
{}

/// The machine does one list of acts after another.
pub fn run_in_parts()
    ensures { (xs ys : Items AnyAct) (s : State) → run (xs ++ ys) s ≡ run ys (run xs s) }
{}

/// Sound acts keep each byte that they may not write.
pub fn run_keeps()
    ensures { (uses writes : ℕ → Bool) (acts : Items AnyAct) (s : State) (n : ℕ) → RunKeeps uses writes acts s n }
{}

/// Sound acts leave like states from like ones.
pub fn run_like()
    ensures { (uses writes : ℕ → Bool) (acts : Items AnyAct) (s t : State) → RunLike uses writes acts s t }
{}
