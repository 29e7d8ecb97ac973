//! The checks of names and types: which program is typed, and the first fault of one that isn't.
#![tactic(auto)]

mod faults;
mod laws;
mod lookups;
pub mod names;
pub mod nodes;
mod reasons;
mod table;
mod typed;
pub mod types;

pub use faults::CheckFault;
pub use laws::{
    no_fault_is_good, no_fault_is_typed, numbers_agree, passed_reacts, passed_runs,
    spelled_is_well_formed, typed_has_no_fault,
};
pub use names::check_names;
pub use table::Names;
pub use typed::{Typed, check_types};
