//! Tests of `byte_ops`, `bank_alloc`, `code_items`, `page_layout`, `code_acts`, `glue_steps`, `op_templates`, `product_templates`,
//! `op_code` and `event_code` by their public calls: operations on bytes, places for bytes, marks and jumps that are raised, code that
//! fills program memory, code on four pages that the simulator runs, a sum over three banks, bytes that glue moves, a template and the
//! code of each kind, and the work of an event.
#![tactic(auto)]

#[cfg(test)]
mod act_tests;
#[cfg(test)]
mod code_tests;
#[cfg(test)]
mod event_tests;
#[cfg(test)]
mod glue_tests;
#[cfg(test)]
mod layout_tests;
#[cfg(test)]
mod op_tests;
#[cfg(test)]
mod place_tests;
#[cfg(test)]
mod product_tests;
#[cfg(test)]
mod template_tests;
