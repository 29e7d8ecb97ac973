// Laws on the map of a program's firmware. Each is the contract of a function that does nothing.
ghost use Rattle.frp_tree.specs.Tree.{ProgramTree};
ghost use Rattle.map_file.specs.declared.maps.Map.{Map};
ghost use Rattle.scratch_commit.specs.declared.frames.Frame.{Frame as AnyFrame};
ghost use Rattle.scratch_commit.specs.declared.runs.Run.{Run as AnyRun};
ghost use Rattle.firmware_map.specs.Laws.{FrameIsPlaced, MapKeepsRules, MapListsRightly, MapListsWritten, MapNamesItems, MapReportsFew};
ghost use Rattle.firmware_map.specs.Maps.{Made};
ghost use Rattle.firmware_map.specs.Written.{Used};

/// The map lists only registers that firmware may write, each by its lowest address.
pub fn map_lists_rightly()
    ensures { (p : ProgramTree) (u : Used) (made : Made) (m : Map) → MapListsRightly p u made m }
{}

/// It lists each register that a part of the firmware writes.
pub fn map_lists_written()
    ensures { (p : ProgramTree) (u : Used) (made : Made) (m : Map) → MapListsWritten p u made m }
{}

/// Of a program without inputs it names events, states and outputs rightly, and has no samples.
pub fn map_names_items()
    ensures { (p : ProgramTree) (u : Used) (made : Made) (m : Map) → MapNamesItems p u made m }
{}

/// It reports at most as many banked bytes as are placed.
pub fn map_reports_few()
    ensures { (p : ProgramTree) (u : Used) (made : Made) (m : Map) → MapReportsFew p u made m }
{}

/// Where the program passes the checks and the code fits, it keeps the rules of maps.
pub fn map_keeps_rules()
    ensures { (p : ProgramTree) (u : Used) (made : Made) (m : Map) → MapKeepsRules p u made m }
{}

/// The frame of a run lies where the laws above ask it to.
pub fn frames_are_placed()
    ensures { (p : ProgramTree) (run : AnyRun) (f : AnyFrame) → FrameIsPlaced p run f }
{}
