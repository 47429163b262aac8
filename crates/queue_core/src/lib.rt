//! The order in which jobs are selected. (CLASS and PRTY parameters)
#![tactic(auto)]

pub mod queue;
