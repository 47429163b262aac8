//! Decks looked at for all that is wrong with them, one refusal after another. (This profile)
#![tactic(auto)]

mod advice;
mod called;
pub mod deck;
pub mod guess;
mod hint;
mod inside;
mod known;
mod mark;
mod mended;
pub mod report;
pub mod text;
pub mod warnings;
