//! Rows of words, one behind another in one list of words.
ghost use Rattle.std.specs.Prelude.{◌≡◌, ◌<◌, ◌≤◌, ◌+◌, ◌++◌, ◌∷◌, [], OnErr, OnOk, drop, length, take};
ghost use Rattle.packed_core.specs.Rows.{AreAsLong, row_at};

use std::alloc::{AllocError, Global};
use std::marker::Model;

/// Rows, all as long as the first of them, of which contracts see the list.
#[derive(Drop)]
pub struct Sheet {
    width: usize,
    count: usize,
    words: Vec<u64>,
}

impl Model for Sheet {
    ghost use Rattle.std.specs.Prelude.{◌≡◌, ◌≤◌, ◌*◌, ℕ, List, length};
    ghost use Rattle.std.specs.Simd.{first_chunks};

    ghost Value = { List (List ℕ) };

    ghost view = { λ s. first_chunks s.width s.count s.words.items };

    ghost invariant = { λ s. (length s.words.items ≡ s.count * s.width) × (s.count ≤ length s.words.items) };
}

/// So many words, from one of them on.
fn part_of(words: &[u64], from: usize, count: usize) -> &[u64]
    requires { from + count ≤ length words.now }
    ensures { result.now ≡ take count (drop from words.now) }
{
    &words[from..from + count]
}

/// For how many rows there is room at first.
const ROOM: usize = 8;

impl Sheet {
    /// No row.
    pub(crate) fn none(alloc: Global) -> Sheet
        ensures { result ≡ [] }
    {
        Sheet {
            width: 0,
            count: 0,
            words: Vec::new(alloc),
        }
    }

    /// How many there are.
    pub(crate) fn len(&self) -> usize
        ensures { result ≡ length self.now }
    {
        self.count
    }

    /// The row of this number.
    pub(crate) fn at(&self, number: usize) -> &[u64]
        requires { number < length self.now }
        ensures { result.now ≡ row_at self.now number }
    {
        let words = self.words.as_slice();
        part_of(words, number * self.width, self.width)
    }

    /// Makes room for rows as long as the first, before that is put.
    fn begin(&mut self, width: usize) -> Result<(), AllocError>
        ensures same { self.new ≡ self.old }
    {
        if self.count > 0 {
            return Ok(());
        }
        self.words.reserve(width.saturating_mul(ROOM))?;
        Ok(())
    }

    /// Puts a row behind them, as long as they are.
    pub(crate) fn push(&mut self, row: &[u64]) -> Result<(), AllocError>
        requires some { 0 < length row.now }
        requires as_long { AreAsLong self.old (length row.now) }
        ensures put { OnOk result (self.new ≡ self.old ++ row.now ∷ []) }
        ensures kept { OnErr result (self.new ≡ self.old) }
    {
        self.begin(row.len())?;
        self.words.extend_from_slice(row)?;
        self.width = row.len();
        self.count += 1;
        Ok(())
    }
}
