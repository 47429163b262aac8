//! Views, fates and classes of worked examples: what a run sees after each step, what becomes of a step, and which codes its tests tell apart.
#![tactic(auto)]

pub mod classes;
pub mod fates;
pub mod views;
