//! The cards that JOB, EXEC and PROC statements are: each operand as it means; and the rules that all statements have for their keywords.
//! (GC28-6704, "Job control statements")
#![tactic(auto)]

pub mod coded;
pub mod examples;
pub mod exec;
mod exec_conditions;
mod exec_keyword;
pub mod job;
pub mod procedure;
pub mod rules;
pub mod value_in;
