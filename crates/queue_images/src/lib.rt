//! A queue whose records are of the first layout is carried over into one of the second. (This profile)
#![tactic(auto)]

mod carry;
pub mod image;
mod load;
pub mod migrate;
mod numbers;
mod waiting;
