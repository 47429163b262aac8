//! Why a deck is refused, and where: on which card, or by which statement; and on which cards the steps and DDs of its job stand.
#![tactic(auto)]

pub mod called;
pub mod copies;
pub mod judge;
pub mod laws;
mod lines;
pub mod marks;
pub mod part;
mod parts;
mod refusing;
mod same;
mod short;
pub mod stands;
pub mod walk;
