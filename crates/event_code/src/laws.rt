// Laws of an event's work. Each is the contract of a function that does nothing.
ghost use Rattle.std.specs.Prelude.{ℕ, List as Items};
ghost use Rattle.frp_tree.specs.Tree.{ProgramTree};
ghost use Rattle.pic_machine.specs.Chip.{Chip};
ghost use Rattle.map_file.specs.declared.maps.Map.{Map as AnyMap};
ghost use Rattle.bank_alloc.specs.declared.needs.Needs.{Needs as AnyNeeds};
ghost use Rattle.code_steps.specs.declared.banks.Bank.{Bank as AnyBank};
ghost use Rattle.code_items.specs.declared.items.Item.{Item as AnyItem};
ghost use Rattle.event_ops.specs.declared.results.EventOps.{EventOps as AnyEventOps};
ghost use Rattle.firmware_parts.specs.Layout.{Layout};
ghost use Rattle.event_code.specs.Laws.{DoesEventWork, MapReadsStates, WorksCanBeCoded};

/// A map that lists a program's states at the addresses of their cells reads off each chip the state that its plain bytes hold.
pub fn map_reads_states()
    ensures { (p : ProgramTree) (need : AnyNeeds) (m : AnyMap) (c : Chip) → MapReadsStates p need m c }
{}

/// What an event does with bytes can be coded where its cells are placed.
pub fn works_can_be_coded()
    ensures { (p : ProgramTree) (event : Items ℕ) (cells : ℕ) (ops : AnyEventOps) → WorksCanBeCoded p event cells ops }
{}

/// Items that do an event's operations in order do the event's work on the chip, wherever they stand: they come to their end under
/// whole runs of others, and where only sources arrive the window then has the reaction to the event. They are at most as many as
/// the weight of the event's body.
pub fn does_event_work()
    ensures { (p : ProgramTree) (m : AnyMap) (need : AnyNeeds) (ops : AnyEventOps) (l : Layout) (e : ℕ) (bank : AnyBank) (items : Items AnyItem)
        → DoesEventWork p m need ops l e bank items }
{}
