//! The job that a deck denotes: its cards, its statements, its steps with the procedures that it calls, and its plan.
#![tactic(auto)]

pub mod job;
