//! A volume's tracks and its table of contents: which tracks are free, which sets are on it and where. (GC28-6704, "SPACE parameter";
//! which extents are taken is this profile's rule)
#![tactic(auto)]

mod contents;
pub mod entry;
pub mod fault;
pub mod laws;
mod marks;
mod space;
mod table;
pub mod volume;
