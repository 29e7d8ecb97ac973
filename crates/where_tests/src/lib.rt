//! Tests of `where_tool` by its one call, over files and a sink in memory. Each runs with ample memory and with any one
//! allocation made to fail, which it takes for what it is.
#![tactic(auto)]

#[cfg(test)]
mod calls;
#[cfg(test)]
mod check_tests;
#[cfg(test)]
mod ending_tests;
#[cfg(test)]
mod report_tests;
#[cfg(test)]
mod rows;
#[cfg(test)]
mod syntax_tests;
