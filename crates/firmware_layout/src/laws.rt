// Laws of the layout. Each is the contract of a function that does nothing.
ghost use Rattle.std.specs.Prelude.{ℕ, List as Items};
ghost use Rattle.frp_tree.specs.Tree.{ProgramTree};
ghost use Rattle.map_file.specs.declared.maps.Map.{Map as AnyMap};
ghost use Rattle.firmware_layout.specs.Made.{IsMaking};
ghost use Rattle.firmware_layout.specs.Laws.{EachRunStands, IsHeard, LayoutArranged, LayoutEnables, LayoutLevels, LayoutPlaces, LayoutStates, LayoutTimes, LayoutWrites, RunsLieApart, VectorOfCodeStands};
ghost use Rattle.firmware_layout.specs.Pieces.{Makings};

/// What is computed as heard at a level is heard there: the enables of the sources above it, and PEIE where one of them needs it.
pub fn is_heard()
    ensures { (p : ProgramTree) (level : ℕ) → IsHeard p level }
{}

/// The layout's levels order events as the map's priorities do.
pub fn layout_levels()
    ensures { (f : Makings) (program marks : ℕ → ℕ) (m : AnyMap) → LayoutLevels f program marks m }
{}

/// At each level exactly the sources of the events above it are heard.
pub fn layout_enables()
    ensures { (f : Makings) (program marks : ℕ → ℕ) (m : AnyMap) → LayoutEnables f program marks m }
{}

/// Each run stands from its entry to behind its return, and its marks are its places.
pub fn each_run_stands()
    ensures { (f : Makings) (program marks : ℕ → ℕ) (event : ℕ) → EachRunStands f program marks event }
{}

/// The head stands at address 0, and the rest of the boot at its mark.
pub fn vector_of_code_stands()
    ensures { (f : Makings) (program marks : ℕ → ℕ) → VectorOfCodeStands f program marks }
{}

/// Runs lie apart from each other, from the head and from the boot.
pub fn runs_lie_apart()
    ensures { (f : Makings) (program marks : ℕ → ℕ) (event : ℕ) → RunsLieApart f program marks event }
{}

/// Opens and commits are places at which one part alone runs a step, and those of the map.
pub fn layout_places()
    ensures { (f : Makings) (program marks : ℕ → ℕ) (m : AnyMap) → LayoutPlaces f program marks m }
{}

/// Parts write states in windows alone, frames of their own, and nothing that isn't listed.
pub fn layout_writes()
    ensures { (f : Makings) (program marks : ℕ → ℕ) (m : AnyMap) → LayoutWrites f program marks m }
{}

/// The layout's states begin and go on as the program's, and are those that the map reads off the chip.
pub fn layout_states()
    ensures { (f : Makings) (program marks : ℕ → ℕ) (m : AnyMap) (initial : Items ℕ) → LayoutStates f program marks m initial }
{}

/// The times of the program's code fit the program and its map.
pub fn layout_times()
    ensures { (f : Makings) (marks : ℕ → ℕ) (m : AnyMap) → LayoutTimes f marks m }
{}

/// Code that is put together from such pieces, and stands in program memory, is arranged as its layout says, with the times of its
/// program.
pub fn layout_arranged()
    ensures { (f : Makings) (program marks : ℕ → ℕ) (m : AnyMap) (initial : Items ℕ) → LayoutArranged f program marks m initial }
{}

/// Where each piece of firmware does its own, its pieces can be put together: the laws above hold of them.
pub fn is_making()
    ensures { (f : Makings) → IsMaking f }
{}
