//! Rows in the order in which they were put, each once.
ghost use Rattle.std.specs.Prelude.{◌≡◌, ◌<◌, ◌++◌, ◌∷◌, [], OnErr, OnOk, false, length};
ghost use Rattle.packed_core.specs.Indexed.{hash_from};
ghost use Rattle.packed_core.specs.Rows.{AreAsLong, IsFound, has_row, row_at};
ghost use Rattle.packed_core.specs.Words.{joined_words};

use crate::index::{Index, find_among, hash_joined, index_more};
use crate::sheet::Sheet;
use std::alloc::{AllocError, Global};
use std::marker::Model;

/// Rows of words, each once, of which contracts see the list. Few are looked through one by one, and one of many is found by an index.
#[derive(Drop)]
pub struct RowList {
    rows: Sheet,
    index: Option<Box<Index>>,
}

impl Model for RowList {
    ghost use Rattle.std.specs.Prelude.{ℕ, List, IfSome};
    ghost use Rattle.packed_core.specs.Indexed.{IsIndexOf};

    ghost Value = { List (List ℕ) };

    ghost view = { λ l. l.rows };

    ghost invariant = { λ l. IfSome l.index (λ x. IsIndexOf l.rows x.value) };
}

impl RowList {
    /// No row.
    pub fn none(alloc: Global) -> RowList
        ensures { result ≡ [] }
    {
        RowList {
            rows: Sheet::none(alloc),
            index: None,
        }
    }

    /// How many there are.
    pub fn len(&self) -> usize
        ensures { result ≡ length self.now }
    {
        self.rows.len()
    }

    /// The row of this number.
    pub fn at(&self, number: usize) -> &[u64]
        requires { number < length self.now }
        ensures { result.now ≡ row_at self.now number }
    {
        self.rows.at(number)
    }

    /// The number of a row with a mask beside it.
    pub fn find_joined(&self, row: &[u64], mask: &[u64]) -> Option<usize>
        requires as_long { length mask.now ≡ length row.now }
        ensures { IsFound self.now (joined_words row.now mask.now) result }
    {
        match &self.index {
            Some(index) => index.find(&self.rows, row, mask, hash_joined(row, mask)),
            None => find_among(&self.rows, row, mask),
        }
    }

    /// The number of a row, whose words come to this.
    pub fn find(&self, row: &[u64], hash: u64) -> Option<usize>
        requires hash { hash ≡ hash_from 0 row.now }
        ensures { IsFound self.now row.now result }
    {
        match &self.index {
            Some(index) => index.find(&self.rows, row, row, hash),
            None => find_among(&self.rows, row, row),
        }
    }

    /// Whether a row, whose words come to this, is among them.
    pub fn has(&self, row: &[u64], hash: u64) -> bool
        requires hash { hash ≡ hash_from 0 row.now }
        ensures { result ≡ has_row row.now self.now }
    {
        self.find(row, hash).is_some()
    }

    /// Puts a row behind them that is as long as they are and not among them, whose words come to this.
    pub fn push(&mut self, alloc: Global, row: &[u64], hash: u64) -> Result<(), AllocError>
        requires some { 0 < length row.now }
        requires as_long { AreAsLong self.old (length row.now) }
        requires new { has_row row.now self.old ≡ false }
        requires hash { hash ≡ hash_from 0 row.now }
        ensures put { OnOk result (self.new ≡ self.old ++ row.now ∷ []) }
        ensures kept { OnErr result (self.new ≡ self.old) }
    {
        let index = self.index.take();
        let more = index_more(alloc, index, &self.rows, hash)?;
        self.rows.push(row)?;
        self.index = more;
        Ok(())
    }
}
