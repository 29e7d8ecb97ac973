//! The core of priorities, with time and without a chip: work that urgent events interrupt, that begins again where another
//! run has committed, and that commits with interrupts off.
//!
//! The crate has definitions alone, and laws on them as contracts of functions with empty bodies. Whoever shows that
//! firmware takes the core's steps, boundary by boundary, has these laws for it.
#![tactic(auto)]

mod laws;

pub use laws::{
    accounts_for_waiting, accounts_from_boot, all_react_in_time, becomes_ready, closes_in_time,
    interrupts_come_on, keeps_its_shape, listens_in_time, nests_by_levels, never_is_stuck,
    none_overtakes, opens_in_turn, responds_in_time, treats_each_once, work_opens_in_time,
};
