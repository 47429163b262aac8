//! The values of keywords: what each means, and its faults. (GC28-6704, "EXEC statement", "DD statement")
#![tactic(auto)]

mod decimal;
pub mod disposition;
pub mod examples;
pub mod label;
pub mod parm_fault;
mod places;
pub mod reads;
pub mod reference;
pub mod refusal;
pub mod set;
pub mod set_name;
pub mod space;
pub mod unit;
pub mod volume_name;
