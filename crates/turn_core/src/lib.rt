//! The turn of an admitted job, over any store.
#![tactic(auto)]

mod ended;
mod find;
mod idle;
pub mod laws;
mod next;
mod past;
mod perform;
pub mod todo;
pub mod turn;
mod volume;
mod wait;
pub mod walk;
