//! The store that an analysed job sees: its sets by key and volume, its entries by name. What is looked up is found among many as soon as among few.
#![tactic(auto)]

mod entries;
pub mod place;
mod sets;
pub mod store;
