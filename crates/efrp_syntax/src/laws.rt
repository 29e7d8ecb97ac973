// Laws on texts, their tokens and their trees. Each is the contract of a function that does nothing.
ghost use Rattle.std.specs.Prelude.{◌≡◌, ℕ, List};
ghost use Rattle.frp_tree.specs.Tokens.{HasTokens};
ghost use Rattle.frp_tree.specs.Laws.{OneTree, OneProgram, FewestBrackets};
ghost use Rattle.frp_tree.specs.declared.tokens.Token.{Token as Tokens};

/// A text has at most one list of tokens.
pub fn one_list_of_tokens()
    ensures { (text : List ℕ) (some others : List Tokens) → HasTokens text some → HasTokens text others → others ≡ some }
{}

/// Tokens have at most one tree, limits disregarded.
pub fn one_tree()
    ensures { OneTree }
{}

/// A text spells at most one program.
pub fn one_program()
    ensures { OneProgram }
{}

/// What is printed of a program has no more tokens than anything that has its tree.
pub fn fewest_brackets()
    ensures { FewestBrackets }
{}
