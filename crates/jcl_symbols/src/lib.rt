//! Operands of procedures with the values of symbols. (GC28-6704, "Symbolic parameters")
#![tactic(auto)]

pub mod examples;
pub mod substitution;
pub mod symbol;
mod symbols;
mod writing;
