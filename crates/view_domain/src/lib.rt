//! What an analysis asks of a way to keep views: a trait, and what its answers say.
#![tactic(auto)]

pub mod crossed;
pub mod domain;
