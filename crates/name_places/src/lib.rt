//! Names by their places in a list, found without going through them all.
#![tactic(auto)]

pub mod places;
