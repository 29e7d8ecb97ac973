//! Tests of the crates that read a source text, by their public calls.
#![tactic(auto)]

#[cfg(test)]
mod again_tests;
#[cfg(test)]
mod parse_tests;
#[cfg(test)]
mod printing_tests;
#[cfg(test)]
mod sources;
#[cfg(test)]
mod token_tests;
