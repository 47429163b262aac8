//! What a job means alone: the lines that it writes and the store that it leaves, action by action. (GC28-6704: COND, DISP, passing,
//! the catalog; programs and their requests are this profile's)
#![tactic(auto)]

pub mod budget;
pub mod ending;
pub mod history;
mod in_order;
pub mod meanings;
pub mod names;
pub mod places;
pub mod program;
pub mod solo;
pub mod source;
pub mod state;
pub mod store;
pub mod take;
pub mod words;
