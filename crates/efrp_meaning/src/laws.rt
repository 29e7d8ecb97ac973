// What is true of every program, as contracts of functions that do nothing.
ghost use Rattle.frp_tree.specs.Tree.{ProgramTree};
ghost use Rattle.efrp_meaning.specs.Laws.{
  BeginsInAState,
  CausalIsOrdered,
  HasPortValues,
  HasTypedValues,
  IgnoresSamples,
  IsDefinedAtDepth,
  LeadsRound,
  NeedsAreClosed,
  NeedsAreLeast,
  OrderedIsCausal,
  ReactsToAState,
  RunsToAState,
  Solves,
};

/// An expression that has a type has a value of it, where the names in it have values of theirs.
pub fn has_typed_values()
    ensures { (p : ProgramTree) → HasTypedValues p }
{}

/// Where no definition depends on itself on an event, each has a value of its type, found at most as many
/// definitions deep as there are.
pub fn is_defined_at_depth()
    ensures { (p : ProgramTree) → IsDefinedAtDepth p }
{}

/// The values on an event solve the equations: each is what its definition's rule gives over the others.
pub fn solves()
    ensures { (p : ProgramTree) → Solves p }
{}

/// Where each name of a list depends on one of the list, one of them depends on itself.
pub fn leads_round()
    ensures { (p : ProgramTree) → LeadsRound p }
{}

/// Where the definitions have an order on an event, each behind those on which it depends, none depends on itself.
pub fn ordered_is_causal()
    ensures { (p : ProgramTree) → OrderedIsCausal p }
{}

/// Where none of a typed program depends on itself, they have such an order.
pub fn causal_is_ordered()
    ensures { (p : ProgramTree) → CausalIsOrdered p }
{}

/// The port values of an event are defined, a byte for each output.
pub fn has_port_values()
    ensures { (p : ProgramTree) → HasPortValues p }
{}

/// The initial state has a value of its type for each reactive definition.
pub fn begins_in_a_state()
    ensures { (p : ProgramTree) → BeginsInAState p }
{}

/// A reaction is defined, and leads from a state to a state.
pub fn reacts_to_a_state()
    ensures { (p : ProgramTree) → ReactsToAState p }
{}

/// Each serial run of the program's events is defined, and ends in a state.
pub fn runs_to_a_state()
    ensures { (p : ProgramTree) → RunsToAState p }
{}

/// The non-reactive definitions that are named in what an event needs are those that it needs.
pub fn needs_are_closed()
    ensures { (p : ProgramTree) → NeedsAreClosed p }
{}

/// All other definitions that are closed in this way have those that it needs.
pub fn needs_are_least()
    ensures { (p : ProgramTree) → NeedsAreLeast p }
{}

/// A program without inputs reacts alike to all samples.
pub fn ignores_samples()
    ensures { (p : ProgramTree) → IgnoresSamples p }
{}
