//! Pictures of SVG: their shapes, and their text to the byte.
#![tactic(auto)]

mod attribute;
mod element;
pub mod laws;
mod pen;
pub mod picture;
pub mod shape;
mod text;
