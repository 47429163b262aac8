//! A job whose names are held is admitted, or waits for space; what an admitted job gives back at its end. (This profile)
#![tactic(auto)]

pub mod admission;
pub mod admit;
pub mod ending;
