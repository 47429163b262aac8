//! What is kept of a session, event by event: runs of jobs that wait, of what initiators and writers do, of names that are held, and of
//! volumes' tracks.
#![tactic(auto)]

pub mod dates;
pub mod history;
pub mod initiators;
pub mod jobs;
pub mod lane;
pub mod levels;
pub mod look;
pub mod moment;
pub mod names;
pub mod order;
pub mod queue;
pub mod still;
mod words;
pub mod writers;
