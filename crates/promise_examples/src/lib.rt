//! Computed examples of the promises: logs made by hand, and runs of the code of a counter, which is written by hand too, on the
//! defined chip.
//!
//! The crate has examples alone, in `proofs/`. Nothing stands on it.
#![tactic(auto)]
