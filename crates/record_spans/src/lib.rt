//! Where the records of each job lie in the queue. (This profile)
#![tactic(auto)]

pub mod spans;
