//! The text of a session, and the statements that it is.
#![tactic(auto)]

mod begun;
mod events;
pub mod fault;
mod fields;
mod groups;
mod lines;
pub mod parse;
mod programs;
mod says;
mod sets;
pub mod statement;
mod values;
mod volumes;
mod zaps;
