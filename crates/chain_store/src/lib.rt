//! A store of records that are linked through their own bytes. (This profile)
#![tactic(auto)]

mod chains;
mod records;
mod spots;
pub mod store;
