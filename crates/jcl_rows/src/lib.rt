//! Worked values, operands, statements and decks: what they read as, or the fault that is reported. All of it is laws that are computed.
#![tactic(auto)]

pub mod cards;
pub mod conditions;
pub mod decks;
pub mod denoted;
pub mod edges;
pub mod procedures;
pub mod symbols;
pub mod values;
