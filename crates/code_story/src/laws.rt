// Laws of code that is arranged, and whose parts do what they are to do. Each is the contract of a function that does nothing.

ghost use Rattle.std.specs.Prelude.{ℕ};
ghost use Rattle.frp_tree.specs.Tree.{ProgramTree};
ghost use Rattle.hex_file.specs.declared.images.Image.{Image as AnyImage};
ghost use Rattle.pic_machine.specs.Chip.{Chip};
ghost use Rattle.map_file.specs.declared.maps.Map.{Map as AnyMap};
ghost use Rattle.firmware_promises.specs.Firmware.{AlwaysKeeps, AlwaysSettles};
ghost use Rattle.core_steps.specs.Laws.{AlwaysAccounted, AlwaysResponds, AlwaysTied};
ghost use Rattle.firmware_parts.specs.Layout.{Layout as AnyLayout, Part as AnyPart};
ghost use Rattle.code_story.specs.Code.{Code};
ghost use Rattle.code_story.specs.Laws.{GoesOnAfterOthers, HearsAbove, IsImageOf, IsSimulated, LeavesSetUps, LiesElsewhere, RequestsExactly};

/// The code keeps the steps of the core of priorities at each boundary, whatever comes from outside, for any events and levels.
pub fn code_is_simulated()
    ensures { (f : Code) → IsSimulated f }
{}

/// From every start, whatever comes from outside and at every moment, the run of an image with this code keeps what the program and
/// the map promise.
pub fn code_keeps()
    ensures { (f : Code) (image : AnyImage) → IsImageOf f image → AlwaysKeeps f.p image f.m }
{}

/// From every start it has settled where no source has arrived for the steps that the map reports.
pub fn code_settles()
    ensures { (f : Code) (image : AnyImage) → IsImageOf f image → AlwaysSettles f.p image f.m }
{}

/// In every run of such an image no latch waits longer than the response and what other events cost.
pub fn code_accounts()
    ensures { (f : Code) (image : AnyImage) → IsImageOf f image → AlwaysAccounted f.p image f.m }
{}

/// In every such run an event commits within its response where it is alone.
pub fn code_responds()
    ensures { (f : Code) (image : AnyImage) → IsImageOf f image → AlwaysResponds f.p image f.m }
{}

/// Every such run is tied to the core of lists: its steps are allowed there, with the same events taken and committed.
pub fn code_is_tied()
    ensures { (f : Code) (image : AnyImage) → IsImageOf f image → AlwaysTied f.p image f.m }
{}

/// With the enables of a level each event above it is heard.
pub fn hears_above()
    ensures { (l : AnyLayout) (level : ℕ) (c : Chip) (x : ℕ) → HearsAbove l level c x }
{}

/// With interrupts on too, one is requested exactly where the flag of an event above the level is set.
pub fn requests_exactly()
    ensures { (l : AnyLayout) (level : ℕ) (c : Chip) → RequestsExactly l level c }
{}

/// Work that others interrupt comes to its lock from where they return.
pub fn work_goes_on()
    ensures { (l : AnyLayout) (e k : ℕ) (c d : Chip) → GoesOnAfterOthers l e k c d }
{}

/// What is set up stands behind each part but the boot.
pub fn leaves_set_ups()
    ensures { (p : ProgramTree) (m : AnyMap) (l : AnyLayout) (part : AnyPart) (c d : Chip) → LeavesSetUps p m l part c d }
{}

/// At the places of parts but opens and commits no event of the map opens or commits.
pub fn lies_elsewhere()
    ensures { (m : AnyMap) (l : AnyLayout) (part : AnyPart) (place : ℕ) → LiesElsewhere m l part place }
{}
