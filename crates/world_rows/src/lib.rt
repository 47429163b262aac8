//! Worked sessions: events, the lines that each writes, and that they follow one another in the machine. Laws that are computed.
#![tactic(auto)]

pub mod rules;
pub mod sessions;
pub mod wrong;
