//! The catalog: data set names to volumes, and generation data groups. (GC28-6704, "Cataloging data sets", "Generation data sets")
#![tactic(auto)]

pub mod catalog;
pub mod fault;
