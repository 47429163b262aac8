//! What the machine runs and what it waits for: the programs by name, with the records that they move; the most lines that a job writes
//! with them; and the operations under way on the volumes. (This profile)
#![tactic(auto)]

pub mod budget;
mod counted;
pub mod fault;
pub mod library;
pub mod units;
