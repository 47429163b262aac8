//! A plain way to keep views: a view is a state that shows it, and views are kept in a list.
#![tactic(auto)]

mod again;
pub mod bits;
mod cross;
pub mod domain;
mod keep;
mod leave;
pub mod legs;
mod moves;
pub mod same;
pub mod scene;
mod walk;
