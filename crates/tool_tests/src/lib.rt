//! Tests that cross crates: whole calls of the tool, over files and a sink in memory. Each runs with ample memory
//! and with any one allocation made to fail, which it takes for what it is.
#![tactic(auto)]

#[cfg(test)]
mod big_tests;
#[cfg(test)]
mod calls;
#[cfg(test)]
mod check_tests;
#[cfg(test)]
mod compile_tests;
#[cfg(test)]
mod lamp_tests;
#[cfg(test)]
mod model_tests;
#[cfg(test)]
mod run_calls;
#[cfg(test)]
mod run_tests;
#[cfg(test)]
mod source_tests;
