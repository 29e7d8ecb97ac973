// The words that are no names.
ghost use Rattle.std.specs.Prelude.{◌≡◌};
ghost use Rattle.frp_tree.specs.Names.{is_keyword};

/// Whether the word has a meaning of its own in a program, and so is no name.
pub fn is_keyword(word: &str) -> bool
    ensures { result ≡ is_keyword word.now }
{
    matches!(
        word,
        "event"
            | "priority"
            | "setup"
            | "let"
            | "init"
            | "in"
            | "later"
            | "output"
            | "if"
            | "then"
            | "else"
            | "true"
            | "false"
            | "bool"
            | "u8"
            | "u16"
            | "input"
            | "table"
    )
}
