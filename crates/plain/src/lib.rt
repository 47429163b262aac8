//! Owned bytes, lists and short texts that contracts see as plain lists, without addresses or capacities.
#![tactic(auto)]

pub mod draft;
pub mod lent;
pub mod listed;
pub mod shared;
pub mod short;
pub mod small;
pub mod text;
