//! What the writers have to write: the listings of jobs that are over, and their SYSOUT sets.
#![tactic(auto)]

mod queued;
pub mod spool;
