//! A session played on: after its last event each initiator and each device acts in turn, until nothing moves.
#![tactic(auto)]

pub mod given;
mod giving;
mod lines;
pub mod play;
mod replaying;
mod rounds;
mod search;
pub mod text;
pub mod waits;
