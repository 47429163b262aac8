//! The command line of a program that reads a session: what its words ask for, and what is said where they ask for no session.
#![tactic(auto)]

mod command;
pub mod ended;
pub mod laws;
mod misuse;
pub mod options;
pub mod program;
