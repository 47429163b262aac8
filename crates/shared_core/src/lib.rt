//! The store of all jobs: the catalog, and volumes with their tracks and sets.
#![tactic(auto)]

pub mod key;
pub mod laws;
pub mod store;
pub mod sums;
pub mod volumes;
