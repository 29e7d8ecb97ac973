// Firmware of which each piece does its own is code with all that is known of it. Each law is the contract of a function that does
// nothing.
ghost use Rattle.std.specs.Prelude.{ℕ, List as Items};
ghost use Rattle.map_file.specs.declared.maps.Map.{Map as AnyMap};
ghost use Rattle.firmware_layout.specs.Pieces.{Makings};
ghost use Rattle.firmware_story.specs.Laws.{FirmwareHasCode, RunIsIn, VectorIsHad};

/// The vector stands where the layout says, and is the program's.
pub fn vector_is_had()
    ensures { (f : Makings) (program marks : ℕ → ℕ) (m : AnyMap) (initial : Items ℕ) → VectorIsHad f program marks m initial }
{}

/// The run of each event stands where the layout says, writes what the layout says, does its event's work, and keeps the program's
/// times.
pub fn run_is_in()
    ensures { (f : Makings) (program marks : ℕ → ℕ) (m : AnyMap) (event : ℕ) → RunIsIn f program marks m event }
{}

/// So all of it is code whose parts do what they are to do and lie as they should.
pub fn firmware_has_code()
    ensures { (f : Makings) (program marks : ℕ → ℕ) (m : AnyMap) (initial : Items ℕ) → FirmwareHasCode f program marks m initial }
{}
