//! A job that is read in its records: each field from its record, and no name read anew. (This profile)
#![tactic(auto)]

mod cards;
pub mod laws;
mod lent;
mod places;
pub mod records;
mod said;
