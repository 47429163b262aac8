//! The limits of the machine, what it is configured with and what its writers have to write. (This profile)
#![tactic(auto)]

pub mod config;
pub mod laws;
pub mod machine;
