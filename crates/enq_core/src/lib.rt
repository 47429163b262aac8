//! Data set names held for jobs: all of a job's names at once, shared or exclusive. (This profile's rule)
#![tactic(auto)]

mod conflict;
pub mod marked;
pub mod order;
pub mod table;
mod waits;
