//! What a latch waits for over a log of the chip; and the steps of the core of lists that a log shows.
#![tactic(auto)]

mod laws;

pub use laws::{images_account, images_respond, stories_account, stories_respond};
