//! A job in the records of a store. (This profile)
#![tactic(auto)]

mod cards;
mod cards_record;
mod codes;
mod dd_record;
mod dd_words;
mod dds;
mod head;
mod job_record;
pub mod laws;
pub mod room;
mod set_record;
mod step_record;
mod steps;
mod take;
mod texts;
pub mod write;
