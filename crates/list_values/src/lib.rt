//! The values that are lists: the tests of COND and the references of DCB. (GC28-6704, COND and DCB parameters)
#![tactic(auto)]

mod coded_test;
pub mod condition;
pub mod control_blocks;
pub mod examples;
mod found;
pub mod tests_of;
