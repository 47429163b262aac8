//! A volume that is mounted: its serial, its tracks and sets, and the tracks that are kept on it for sets still to be made.
#![tactic(auto)]

pub mod laws;
mod lists;
pub mod mounted;
pub mod place;
