// What is true of each number's program and arrivals, as contracts of functions that do nothing.
ghost use Rattle.std.specs.Prelude.{ℕ};
ghost use Rattle.large_program.specs.Laws.{ArrivalsRise, LargeFits, LargePasses, PrintsWell};

/// What is printed of a large program spells it, and has at most 65,536 bytes.
pub fn prints_well()
    ensures { (n : ℕ) → PrintsWell n }
{}

/// Each large program passes the checks of names, types and causality.
pub fn large_passes()
    ensures { (n : ℕ) → LargePasses n }
{}

/// Each has no inputs and no tables and fits the chip: 8 levels, at most 169 bytes of RAM and 5,632 words by its bounds.
pub fn large_fits()
    ensures { (n : ℕ) → LargeFits n }
{}

/// The arrivals of each rise, and are of known sources.
pub fn arrivals_rise()
    ensures { (n i : ℕ) → ArrivalsRise n i }
{}
