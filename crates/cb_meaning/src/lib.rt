//! What the records of the queue spell: definitions, and the layout that they read fields through. (This profile)
#![tactic(auto)]

pub mod layout;
pub mod rows;
