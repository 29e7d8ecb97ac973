//! Lists of nodes by number, doubly linked through one array.
//!
//! Nodes and lists are numbered from 0, and a node is in at most one list. `Rows::new` makes all the room; no other call takes
//! memory, and each takes a fixed number of moves.
#![tactic(auto)]

mod links;
mod rows;

pub use rows::Rows;
