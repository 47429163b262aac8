//! The plan of a job: its steps with their tests, references, DDNAMEs and unit names resolved. (GC28-6704, "Backward references", DDNAME and UNIT
//! parameters)
#![tactic(auto)]

pub mod examples;
mod kinds;
pub mod later_dds;
mod places;
mod placing;
pub mod plan;
pub mod targets;
pub mod tests_of;
pub mod units;
mod waiting;
