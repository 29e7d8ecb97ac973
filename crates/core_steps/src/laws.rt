// The theorems on what a latch waits for, over a log of the chip, and on its tie to the core of lists, as contracts of functions
// that do nothing.

ghost use Rattle.core_steps.specs.Laws.{StoriesAccount, StoriesRespond, StoriesTied, ImagesAccount, ImagesRespond, ImagesTied};

/// In a log that has a story no latch waits longer than its response and what the others cost, in steps.
pub fn stories_account()
    ensures { StoriesAccount }
{}

/// In such a log, where each step begins with the chip that the one before it left, an event that is alone commits
/// within its response.
pub fn stories_respond()
    ensures { StoriesRespond }
{}

/// In such a log, where also a source that merges had its flag set, the core of lists is allowed the steps that the log
/// shows; it takes the events whose flags are cleared, and commits those whose commit addresses run.
pub fn stories_tied()
    ensures { StoriesTied }
{}

/// In every run of an image each of whose runs has a story no latch waits longer than that.
pub fn images_account()
    ensures { ImagesAccount }
{}

/// And in every such run an event that is alone commits within its response.
pub fn images_respond()
    ensures { ImagesRespond }
{}

/// And every such run is tied to the core of lists.
pub fn images_tied()
    ensures { ImagesTied }
{}
