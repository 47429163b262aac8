//! Generation data groups: the generations that a group has entered, and what entering, removing and relative numbers mean.
//! (GC28-6704, "Generation data sets"; which number is removed from a full group is this profile's rule)
#![tactic(auto)]

pub mod entry;
pub mod group;
