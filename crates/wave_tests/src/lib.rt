//! Tests of `wave_tool` by its one call, over files and a sink in memory. Each runs with ample memory and with any one
//! allocation made to fail, which it takes for what it is.
#![tactic(auto)]

#[cfg(test)]
mod calls;
#[cfg(test)]
mod ending_tests;
#[cfg(test)]
mod lamp;
#[cfg(test)]
mod lamp_tests;
