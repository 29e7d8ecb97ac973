//! The check for cycles: on each event an order of the definitions, or the first that depends on itself.
#![tactic(auto)]

mod checked;
mod checks;
mod edges;
mod faults;
mod graphs;
mod laws;
mod marks;
mod rounds;
mod sorts;

pub use checked::Checked;
pub use checks::orders;
pub use faults::CycleFault;
pub use laws::cycle_is_first;
