//! Worked records of the queue: their fields, how they are taken and given back, the jobs that are written into them and read from them, and
//! those that wait. The tables say which commands there are.
#![tactic(auto)]

mod deck;
mod desk;
mod fields;
pub mod image;
mod job;
mod names;
mod plan;
mod record;
mod store;
mod sweep;
mod waiting;

pub use crate::desk::answer;
