//! What a session puts into the machine: the statements of its configuration, and events. (This profile)
#![tactic(auto)]

pub mod event;
pub mod statement;
