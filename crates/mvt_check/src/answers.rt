//! What admission answers the jobs of a session, told for each deck that the session reads, and that in words.

pub mod answer;
mod cause;
pub(crate) mod names;
mod noted;
mod path;
pub mod risk;
pub mod session;
pub(crate) mod stays;
pub mod told;
pub mod words;
