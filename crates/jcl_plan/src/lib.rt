//! What a job is, how its steps end, and the lines of the listing. (GC28-6704: JOB, EXEC and DD statements)
#![tactic(auto)]

pub mod day;
pub mod entry;
pub mod fault;
pub mod outcome;
pub mod plan;
pub mod text;
pub mod words;
