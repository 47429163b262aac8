//! The whole machine at a moment, and what may follow an event: definitions. (This profile)
#![tactic(auto)]

pub mod event;
