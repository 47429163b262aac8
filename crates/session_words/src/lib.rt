//! Faults of a session in words: the line, the place in it, what is wrong there and what to do. (This profile)
#![tactic(auto)]

mod fields;
mod finding;
mod forms;
mod guess;
mod lists;
mod statement;
mod unknown;
mod values;
pub mod words;
