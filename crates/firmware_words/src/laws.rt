// Laws of the words of firmware. Each is the contract of a function that does nothing.
ghost use Rattle.firmware_layout.specs.Pieces.{Makings};
ghost use Rattle.firmware_words.specs.Laws.{CodeCanBeLaid, WordsAreBounded};

/// The items of all code are few, fields of their instructions are in range, and each mark stands at most once.
pub fn code_can_be_laid()
    ensures { (f : Makings) → CodeCanBeLaid f }
{}

/// Code that has page settings only where it needs them has no more words than the bound on the program's image.
pub fn words_are_bounded()
    ensures { (f : Makings) → WordsAreBounded f }
{}
