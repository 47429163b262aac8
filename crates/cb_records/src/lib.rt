//! The records of the queue: 176 bytes, views that lend their fields, and writing one field at a time. (This profile)
#![tactic(auto)]

pub mod cards;
pub mod free;
pub mod jct;
pub mod jfcb;
pub mod laws;
pub mod rec;
pub mod sct;
pub mod siot;
