//! Tests of compiled programs on the modelled chip: what their firmware commits and puts under scripts of what arrives, its size, and
//! which programs have none.
#![tactic(auto)]

#[cfg(test)]
mod commit_tests;
#[cfg(test)]
mod level_tests;
#[cfg(test)]
mod order_tests;
#[cfg(test)]
mod programs;
#[cfg(test)]
mod refusal_tests;
#[cfg(test)]
mod runs;
#[cfg(test)]
mod size_tests;
#[cfg(test)]
mod traces;
