//! The cards that DD statements are: each operand as it means; and a DD with its override. (GC28-6704, "DD statement")
#![tactic(auto)]

pub mod dd;
mod dd_faults;
mod dd_key;
mod dd_keywords;
mod dd_value;
pub mod examples;
pub mod given;
pub mod merging;
