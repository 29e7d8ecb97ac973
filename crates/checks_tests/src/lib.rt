//! Tests of the checks of programs, of reactions, and of events files and models, by their public calls.
#![tactic(auto)]

#[cfg(test)]
mod cycle_tests;
#[cfg(test)]
mod event_tests;
#[cfg(test)]
mod level_tests;
#[cfg(test)]
mod name_tests;
#[cfg(test)]
mod react_tests;
#[cfg(test)]
mod type_tests;
