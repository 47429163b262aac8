//! Jobs that are tried: what a job does where each of its steps ends with code 0, and what admission answers it once more behind that.

pub mod deck;
mod field;
pub mod run;
pub mod same;
pub mod words;
