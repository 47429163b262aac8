//! Refusals of decks in words. (This profile)
#![tactic(auto)]

pub mod table;
