//! The analysis of a job over any domain of views: whether some path meets a fault, and where first.
#![tactic(auto)]

mod behind;
mod crossing;
mod laws;
mod makings;
pub mod search;
mod stops;
mod trail;
pub mod verdict;
