//! What a job sees of the store of all jobs, copied into lists. (This profile)
#![tactic(auto)]

mod entries;
pub mod part;
mod seen;
mod sets;
mod volumes;
