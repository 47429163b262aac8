//! Strict reading of a job's records: the number of the first fault that the walk meets, or none. (This profile)
#![tactic(auto)]

pub mod arrival;
mod cards;
mod dd;
mod fields;
pub mod first_fault;
mod job;
mod marks;
mod parts;
mod set;
mod sets;
mod step;
pub mod texts;
mod walk_below;
mod walk_cards;
mod walk_dds;
mod walk_steps;
