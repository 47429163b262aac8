//! What a job does to its sets, action by action, over any store. (GC28-6704, DISP parameter; this profile)
#![tactic(auto)]

pub mod change;
pub mod course;
pub mod dispose;
mod refuse;
pub mod site;
pub mod step;
pub mod take;
