//! Worked texts: short texts, names, lines of the listing, cards and operands. All of it is laws that are computed.
#![tactic(auto)]

pub mod cards;
pub mod lines;
pub mod lists;
pub mod names;
pub mod operands;
