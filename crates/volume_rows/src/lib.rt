//! Worked volumes: groups and the catalog, free extents, sets and their records, kept tracks. The tables say which commands there are.
#![tactic(auto)]

mod catalog;
mod compared;
mod desk;
mod extents;
mod groups;
mod keys;
mod mounted;
mod records;
mod tells;
mod volumes;

pub use crate::desk::answer;
