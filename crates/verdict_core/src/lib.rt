//! What may become of a job in the store of all jobs, before it is admitted. (This profile)
#![tactic(auto)]

pub mod judge;
pub mod known;
mod same;
pub mod tracks;
pub mod verdict;
