//! What is asked of a store, a store of lists, and what the take of a DD's set and its disposition decide. (GC28-6704: DISP, VOLUME, the
//! catalog; the order of faults is this profile's)
#![tactic(auto)]

pub mod alone;
pub mod disposition;
pub mod expiry;
pub mod job_store;
pub mod laws;
pub mod meanings;
pub mod source;
pub mod store;
pub mod take;
