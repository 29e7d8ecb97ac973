//! Tests of single parts by their public calls: the chip, the core of priorities, rows, what events need, plans and maps.
#![tactic(auto)]

#[cfg(test)]
mod chip_tests;
#[cfg(test)]
mod core_tests;
#[cfg(test)]
mod helpers;
#[cfg(test)]
mod map_tests;
#[cfg(test)]
mod plan_tests;
#[cfg(test)]
mod row_tests;
