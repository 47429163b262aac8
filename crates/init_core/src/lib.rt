//! What an initiator does with its job, turn by turn. (This profile)
#![tactic(auto)]

pub mod admission;
pub mod ending;
pub mod go_on;
pub mod names;
pub mod read;
pub mod running;
pub mod turn;
