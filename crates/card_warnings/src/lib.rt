//! What a card of a deck warns of: it is accepted, and rarely meant. And the keywords of its statements.
#![tactic(auto)]

pub mod keywords;
pub mod warning;
