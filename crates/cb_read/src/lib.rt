//! A job's plan, read from its records. (This profile)
#![tactic(auto)]

pub mod cards;
pub mod codes;
mod dds;
mod head;
pub mod laws;
pub mod names;
pub mod read;
pub mod records;
pub mod set;
mod steps;
pub mod tests_read;
