//! A picture of a session: lanes of the queue, of initiators, of writers, of held names and of volumes over the events' numbers.
#![tactic(auto)]

mod axis;
mod canvas;
mod cut;
pub mod draw;
mod label;
mod legend;
mod notes;
mod scale;
mod sheet;
mod style;
mod tell;
mod tracks;
