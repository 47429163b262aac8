//! What is accepted of a job and is rarely meant: by its plan, the programs that it runs, and the volumes.
#![tactic(auto)]

mod names;
pub mod requests;
pub mod spaces;
pub mod warned;
