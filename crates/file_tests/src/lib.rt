//! Tests of the crates of files by their public calls: values from outside, and each call that takes memory once.
#![tactic(auto)]

#[cfg(test)]
mod edge_tests;
#[cfg(test)]
mod hex_tests;
#[cfg(test)]
mod map_tests;
#[cfg(test)]
mod maps;
#[cfg(test)]
mod script_tests;
