//! A job as its actions read it: by numbers and by value, wherever it is kept. (This profile)
#![tactic(auto)]

mod dds;
pub mod planned;
pub mod text;
pub mod texts;
