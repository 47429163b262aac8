//! The library of procedures, each by its name. (GC28-6704, "Cataloged and in-stream procedures")
#![tactic(auto)]

pub mod library;
pub mod lines;
pub mod reading;
