//! The records of a set, and the tracks that they fill. (This profile: records of 80 columns, 32 to a track)
#![tactic(auto)]

pub mod records;
