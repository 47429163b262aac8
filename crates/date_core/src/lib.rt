//! Dates: the day of a year, and its number. (This profile)
#![tactic(auto)]

pub mod calendar;
pub mod examples;
pub mod written;
