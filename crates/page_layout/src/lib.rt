//! Addresses for code: its items become words from address 0 on, with page settings where the code has more than one page.
//!
//! The contract of `layout` says that the words are the code's items in order (`Stands`), and where each mark stands.
#![tactic(auto)]

mod counts;
mod emitted;
mod laid;
mod mark_places;

pub use counts::count_words;
pub use laid::{CodeFault, Laid, layout};
