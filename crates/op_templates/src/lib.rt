//! A list of acts for each operation on bytes but products: what an operation does, over names of bytes.
//!
//! `specs/` has the list of each operation (`template_of`), and says what a template has to be (`IsTemplate`): it does what the
//! operation means, is sound, and takes few words. `template` makes the list.
#![tactic(auto)]

mod comparisons;
mod laws;
mod moves;
mod shifts;
mod sums;
mod templates;

pub use laws::templates_are_right;
pub use templates::template;
