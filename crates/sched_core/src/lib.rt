//! The machine: its start, and its events one at a time. (This profile)
#![tactic(auto)]

mod cancelling;
mod copies;
mod ending;
pub mod fault;
mod going;
mod happening;
pub mod laws;
mod lines;
mod reading;
mod seating;
mod selecting;
mod showing;
pub mod start;
pub mod state;
pub mod system;
pub mod views;
mod zapping;
