//! Tables of worked rows that a person can read and add to, and how they are compared.
#![tactic(auto)]

pub mod check;
pub mod desk;
pub mod escapes;
pub mod names;
pub mod table;
pub mod told;
pub mod words;
