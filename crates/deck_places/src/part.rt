//! What is refused of a deck whose statements are taken.

/// A part of a deck's reading.
#[derive(Clone, Copy, PartialEq, Eq)]
pub enum Part {
    /// Its calls of procedures, and DDs for their steps.
    Calls,
    /// A part of its plan: 1 the number of steps, 2 their tests and DDs, 3 the names that it holds, 4 units.
    Plan(u8),
}
