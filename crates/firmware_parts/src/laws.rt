// Laws of the parts of firmware's code. Each is the contract of a function that does nothing.

ghost use Rattle.frp_tree.specs.Tree.{ProgramTree};
ghost use Rattle.efrp_meaning.specs.Bounds.{off};
ghost use Rattle.map_file.specs.declared.maps.Map.{Map as AnyMap};
ghost use Rattle.timed_core.specs.Timing.{Quick, Within};
ghost use Rattle.firmware_parts.specs.Times.{times};

/// The times of a program's code are within its bound on interrupts that are off, and work opens in time.
pub fn times_fit()
    ensures within { (p : ProgramTree) (m : AnyMap) → Within (times p m) (off p) }
    ensures quick { (p : ProgramTree) (m : AnyMap) → Quick (times p m) }
{}
