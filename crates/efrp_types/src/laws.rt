// What is true of every program that passes the checks, as contracts of functions that do nothing.
ghost use Rattle.frp_tree.specs.Tree.{ProgramTree};
ghost use Rattle.efrp_types.specs.Laws.{
  NoFaultIsGood,
  NoFaultIsTyped,
  NumbersAgree,
  PassedReacts,
  PassedRuns,
  SpelledIsWellFormed,
  TypedHasNoFault,
};

/// Where neither names nor types have a fault, the program is typed and its setups are bytes.
pub fn no_fault_is_typed()
    ensures { (p : ProgramTree) → NoFaultIsTyped p }
{}

/// And the other way: where names have no fault, a typed program's types have none.
pub fn typed_has_no_fault()
    ensures { (p : ProgramTree) → TypedHasNoFault p }
{}

/// Where names have no fault, those of definitions and of events differ, the events' sources are the chip's and differ,
/// and priorities are 1 to 11.
pub fn no_fault_is_good()
    ensures { (p : ProgramTree) → NoFaultIsGood p }
{}

/// A program that passes reacts to each of its events, and the reaction leads from a state to a state.
pub fn passed_reacts()
    ensures { (p : ProgramTree) → PassedReacts p }
{}

/// Each serial run of its events is defined and ends in a state.
pub fn passed_runs()
    ensures { (p : ProgramTree) → PassedRuns p }
{}

/// A program that a text spells keeps the limits of counts; in it no conversion is to bool, and no table is empty.
pub fn spelled_is_well_formed()
    ensures { (p : ProgramTree) → SpelledIsWellFormed p }
{}

/// The numbers of definitions and of events are their places, and where names differ each place is the number of what
/// stands there.
pub fn numbers_agree()
    ensures { (p : ProgramTree) → NumbersAgree p }
{}
