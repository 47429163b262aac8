//! The free extents of a volume: the first by place that has so many tracks, and the largest. (which extents are taken is this profile's
//! rule)
#![tactic(auto)]

pub mod extent;
pub mod free;
pub mod laws;
mod maxima;
