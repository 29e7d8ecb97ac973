// The theorems that lead from the core to the promises of firmware, as contracts of functions that do nothing.

ghost use Rattle.core_story.specs.Laws.{StoriesKeep, StoriesSettle, ImagesKeep, ImagesSettle};

/// A log that has a story keeps at every moment what firmware promises.
pub fn stories_keep()
    ensures { StoriesKeep }
{}

/// It has settled where nothing was latched for the program's bound on settling.
pub fn stories_settle()
    ensures { StoriesSettle }
{}

/// An image each of whose runs has a story keeps what it promises in every run.
pub fn images_keep()
    ensures { ImagesKeep }
{}

/// And each of its runs has settled where no source has arrived for the steps that the map reports.
pub fn images_settle()
    ensures { ImagesSettle }
{}
