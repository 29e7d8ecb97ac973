//! The tree of a program, and the texts and lists that it is made of.
//!
//! Contracts see a `Text` as its bytes and a `List` as the list of its items. `specs/` has the
//! definitions that speak of a program's tokens and tree alone. What a program means is in
//! `efrp_meaning`.
#![tactic(auto)]

mod kinds;
mod levels;
pub mod limits;
mod lists;
pub mod marks;
mod syntax;
mod texts;
mod tokens;

pub use kinds::Kind;
pub use levels::Level;
pub use lists::List;
pub use syntax::{
    Behaviour, BinOp, Clause, Decl, Event, Expr, Lit, Output, Program, Setup, Side, Ty, UnOp,
    Value, lit_value,
};
pub use texts::Text;
pub use tokens::Token;
