//! A packed way to keep views: a view is a row of words, the number of its scene and then bits, and rows are found by their hash.
#![tactic(auto)]

mod apart;
pub mod asking;
mod before;
mod branches;
mod classes;
mod cross;
pub mod domain;
mod entries;
mod find;
mod index;
pub mod job;
mod keep;
mod known;
mod masks;
mod placed;
mod room;
mod rooms;
pub mod row_list;
mod scenes;
mod served;
mod sheet;
pub mod sights;
pub mod view;
pub mod views;
mod ways;
mod words;
