//! The requests of a program, as a session and the machine keep them. (This profile)
#![tactic(auto)]

pub mod requests;
