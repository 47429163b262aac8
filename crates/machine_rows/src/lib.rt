//! Worked parts of the machine: held names, programs and operations on volumes, the store of all jobs, places of sets, and what writers write. The
//! tables say which commands there are.
#![tactic(auto)]

mod catalog;
mod desk;
mod holds;
mod operations;
mod places;
mod programs;
mod sets;
mod spool;

pub use crate::desk::answer;
