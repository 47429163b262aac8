//! Where the sets of a job are placed: tracks are set aside for each in turn, and all are given back.
#![tactic(auto)]

mod aside;
pub mod keep;
pub mod laws;
pub mod place;
mod rule;
