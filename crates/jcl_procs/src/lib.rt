//! The steps of a deck, those of the procedures that it calls in their places. (GC28-6704, "Cataloged and in-stream procedures")
#![tactic(auto)]

mod bodies;
pub mod calls;
pub mod conditions;
mod copies;
pub mod examples;
pub mod expansion;
mod known;
pub mod overriding;
mod remembered;
pub mod step;
