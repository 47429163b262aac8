//! The configuration of the machine: volumes, units, groups, sets, procedures, programs and initiators, statement by statement. (This profile)
#![tactic(auto)]

pub mod config;
mod faults;
mod known;
pub mod laws;
mod sets;
pub mod start;
pub mod units;
