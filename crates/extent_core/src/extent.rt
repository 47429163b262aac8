//! Neighbouring tracks.

/// Neighbouring tracks: the first, counted from 0, and how many.
#[derive(Clone, Copy, Default, PartialEq, Eq)]
pub struct Extent {
    pub start: u16,
    pub tracks: u16,
}
