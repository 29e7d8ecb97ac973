//! From an expression to operations on single bytes, over numbered cells.
//!
//! `specs/Lowered` says what an expression is lowered to (`Lowers`), apart from any code.
#![tactic(auto)]

mod cells;
mod drafts;
mod lowering;
mod nodes;
mod places;

pub use cells::Cells;
pub use lowering::{Lowered, lower};
