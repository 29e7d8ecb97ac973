// Laws of code that takes its steps by itself. Each is the contract of a function that does nothing.

ghost use Rattle.std.specs.Prelude.{ℕ};
ghost use Rattle.code_steps.specs.Laws.{GoesOn, IsOwnStep, IsOwnStepLate, LeavesByte, Piece, RunsAlone, TestsFlags};
ghost use Rattle.code_steps.specs.declared.banks.Bank.{Bank as AnyBank};
ghost use Rattle.pic_machine.specs.Boundary.{Outer};
ghost use Rattle.pic_machine.specs.Chip.{Chip};
ghost use Rattle.pic_machine.specs.Results.{Done};

/// Code that others' runs may interrupt comes to its end from where such a run has returned, in as many steps.
pub fn goes_on_after_others()
    ensures { (program : ℕ → ℕ) (piece : Piece) (place : ℕ) (bank : AnyBank) (k : ℕ) (c d : Chip) → GoesOn program piece place bank k c d }
{}

/// A byte that the code may not write, and that nothing between its steps changes, is at its end as it was.
pub fn leaves_other_bytes()
    ensures { (program : ℕ → ℕ) (piece : Piece) (place : ℕ) (bank : AnyBank) (address k : ℕ) (c : Chip) → LeavesByte program piece place bank address k c }
{}

/// A boundary at which nothing is due or requested is an own step of the code.
pub fn own_step_is_a_boundary()
    ensures { (program : ℕ → ℕ) (outer : Outer) (c : Chip) (done : Done) → IsOwnStep program outer c done }
{}

/// So is one at which an interrupt is requested and late; the interrupt is due after it.
pub fn late_step_is_an_own_step()
    ensures { (program : ℕ → ℕ) (outer : Outer) (c : Chip) (done : Done) → IsOwnStepLate program outer c done }
{}

/// Where nothing is due or requested, a run comes to the end of the code within as many steps as the code takes.
pub fn runs_alone()
    ensures { (program : ℕ → ℕ) (piece : Piece) (place : ℕ) (bank : AnyBank) (k : ℕ) (c : Chip) (outer : ℕ → Outer) → RunsAlone program piece place bank k c outer }
{}

/// BTFSC and BTFSS test the bits of INTCON and of the bytes from 70h to 7Fh in any bank, those of PIR1 and PIR2 in bank 0.
pub fn tests_flags()
    ensures { (c : Chip) → TestsFlags c }
{}
