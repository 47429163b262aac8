//! What all jobs change, the events that change no job at an initiator, and what a job that is over gives back. (This profile)
#![tactic(auto)]

pub mod events;
pub mod over;
pub mod parts;
pub mod tracks;
