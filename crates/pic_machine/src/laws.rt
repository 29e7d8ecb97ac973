// Laws of the boundary's definition.

ghost use Rattle.std.specs.Prelude.{ℕ};
ghost use Rattle.pic_machine.specs.Boundary.{Outer};
ghost use Rattle.pic_machine.specs.Chip.{Chip as AnyChip};
ghost use Rattle.pic_machine.specs.Laws.{StopsExactly, TakesInTime, TakesWhereItMay};

/// A step stops exactly where no interrupt is due or requested and the word at the program counter is no
/// instruction, or SLEEP.
pub fn stops_exactly()
    ensures { (program : ℕ → ℕ) (outer : Outer) (c : AnyChip) → StopsExactly program outer c }
{}

/// A step takes an interrupt only where one is due or interrupts are on.
pub fn takes_where_it_may()
    ensures { (program : ℕ → ℕ) (outer : Outer) (c : AnyChip) → TakesWhereItMay program outer c }
{}

/// A requested interrupt is taken at the same step or the next.
pub fn takes_in_time()
    ensures { (program : ℕ → ℕ) (c : AnyChip) (outer : ℕ → Outer) (n : ℕ) → TakesInTime program c outer n }
{}
