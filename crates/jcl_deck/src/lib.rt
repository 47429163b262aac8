//! A deck: its job, its procedures in the stream, and its steps. (GC28-6704, "Job control statements")
#![tactic(auto)]

pub mod dd_place;
pub mod deck;
pub mod operation;
pub mod place;
pub mod read;
