//! The requests of a job's program, over any store: a request's first action, and what is due at the device's end. (This profile)
#![tactic(auto)]

pub mod ask;
pub mod here;
mod put;
pub mod read;
pub mod request;
