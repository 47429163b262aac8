//! What becomes of a step, by the outcomes of the steps before it, and classes of codes that meet the same tests. (COND parameter)
#![tactic(auto)]

pub mod classes;
pub mod history;
pub mod laws;
