//! The records and the names of a job, from its reading to its end. (This profile)
#![tactic(auto)]

pub mod backlog;
pub mod cancels;
pub mod laws;
pub mod read;
pub mod reading;
pub mod records;
pub mod selecting;
pub mod wants;
pub mod zapping;
