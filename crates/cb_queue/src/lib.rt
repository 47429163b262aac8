//! Stores of records, which are taken and given back, and of the jobs that wait. (This profile)
#![tactic(auto)]

pub mod laws;
pub mod list_store;
pub mod store;
