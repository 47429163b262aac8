//! An index of rows, by which one of many is found.
ghost use Rattle.std.specs.Prelude.{◌≡◌, ◌<◌, [], ℕ, List, IfOk, IfSome, OnOk, length};
ghost use Rattle.packed_core.specs.Indexed.{IsIndexOf, IsIndexOfMore, hash_from};
ghost use Rattle.packed_core.specs.Rows.{IsFound, row_at, same_words};
ghost use Rattle.packed_core.specs.Words.{joined_words};

use crate::sheet::Sheet;
use std::alloc::{AllocError, Global};

/// By what the words of a row are multiplied: 2 ^ 64 parted by the golden section, so that each bit counts.
const FACTOR: u64 = 0x9E37_79B9_7F4A_7C15;

/// What the words of each row come to, the last row of each place, and of each row the one before it at its place. Rows are numbered from 1, and 0 is
/// none.
#[derive(Drop)]
pub struct Index {
    pub hashes: Vec<u64>,
    pub heads: Vec<usize>,
    pub next: Vec<usize>,
}

/// What the words of a row come to.
pub(crate) fn hash_of(row: &[u64]) -> u64
    ensures { result ≡ hash_from 0 row.now }
{
    let mut hash = 0u64;
    for word in row {
        hash = hash.wrapping_add(*word).wrapping_mul(FACTOR);
    }
    hash
}

/// The same with the words of a mask beside them.
pub(crate) fn hash_joined(row: &[u64], mask: &[u64]) -> u64
    requires as_long { length mask.now ≡ length row.now }
    ensures { result ≡ hash_from 0 (joined_words row.now mask.now) }
{
    let mut hash = 0u64;
    for (j, word) in row.iter().enumerate() {
        hash = hash.wrapping_add(*word | mask[j]).wrapping_mul(FACTOR);
    }
    hash
}

/// Whether a row is another with a mask beside it.
pub(crate) fn is_joined(all: &[u64], row: &[u64], mask: &[u64]) -> bool
    requires as_long { length mask.now ≡ length row.now }
    ensures { result ≡ same_words (joined_words row.now mask.now) all.now }
{
    if all.len() != row.len() {
        return false;
    }
    for (j, word) in row.iter().enumerate() {
        if all[j] != *word | mask[j] {
            return false;
        }
    }
    true
}

impl Index {
    /// Whether the row of this number is one with a mask beside it, whose words come to this.
    fn is_at(&self, rows: &Sheet, n: usize, row: &[u64], mask: &[u64], hash: u64) -> bool
        requires number { n < length rows.now }
        requires as_long { length mask.now ≡ length row.now }
        requires hash { hash ≡ hash_from 0 (joined_words row.now mask.now) }
        requires indexed { IsIndexOf rows.now self.now }
        ensures { result ≡ same_words (joined_words row.now mask.now) (row_at rows.now n) }
    {
        if self.hashes[n] != hash {
            return false;
        }
        is_joined(rows.at(n), row, mask)
    }

    /// The number of a row with a mask beside it, whose words come to this.
    pub(crate) fn find(&self, rows: &Sheet, row: &[u64], mask: &[u64], hash: u64) -> Option<usize>
        requires as_long { length mask.now ≡ length row.now }
        requires hash { hash ≡ hash_from 0 (joined_words row.now mask.now) }
        requires indexed { IsIndexOf rows.now self.now }
        ensures { IsFound rows.now (joined_words row.now mask.now) result }
    {
        let mut left = self.heads[hash as usize % self.heads.len()];
        while left > 0 {
            let n = left - 1;
            if self.is_at(rows, n, row, mask, hash) {
                return Some(n);
            }
            left = self.next[n];
        }
        None
    }

    /// Puts a row, whose words come to this, behind those that are found.
    fn link(&mut self, hash: u64) -> Result<(), AllocError>
        requires some { 0 < length self.old.heads.items }
        ensures some { 0 < length self.new.heads.items }
        ensures linked { (rows : List (List ℕ)) (row : List ℕ) → IsIndexOf rows self.old → hash ≡ hash_from 0 row →
            OnOk result (IsIndexOfMore rows row self.new) }
    {
        let place = hash as usize % self.heads.len();
        self.hashes.push(hash)?;
        self.next.push(self.heads[place])?;
        self.heads[place] = self.next.len();
        Ok(())
    }
}

/// An index of no row, with places for so many and more.
fn index_for(alloc: Global, count: usize) -> Result<Box<Index>, AllocError>
    ensures empty { IfOk result (λ x. IsIndexOf [] x.value) }
    ensures some { IfOk result (λ x. 0 < length x.value.heads.items) }
{
    let places = count.saturating_mul(4);
    let index = Index {
        hashes: Vec::with_capacity(alloc, places)?,
        heads: vec![in alloc; 0usize; places.saturating_add(1)]?,
        next: Vec::with_capacity(alloc, places)?,
    };
    let index = Box::new(alloc, index)?;
    Ok(index)
}

/// An index of rows.
fn index_of(alloc: Global, rows: &Sheet) -> Result<Box<Index>, AllocError>
    ensures { IfOk result (λ x. IsIndexOf rows.now x.value) }
{
    let mut index = index_for(alloc, rows.len())?;
    for n in 0..rows.len() {
        index.link(hash_of(rows.at(n)))?;
    }
    Ok(index)
}

/// An index of the same rows with more places.
fn index_again(alloc: Global, index: &Index) -> Result<Box<Index>, AllocError>
    ensures { (rows : List (List ℕ)) → IsIndexOf rows index.now → IfOk result (λ x. IsIndexOf rows x.value) }
{
    let mut more = index_for(alloc, index.hashes.len())?;
    for hash in index.hashes.as_slice() {
        more.link(*hash)?;
    }
    Ok(more)
}

/// The index of rows, or another of them where there is none or it has too few places.
fn with_room(
    alloc: Global,
    index: Option<Box<Index>>,
    rows: &Sheet,
) -> Result<Box<Index>, AllocError>
    requires indexed { IfSome index (λ x. IsIndexOf rows.now x.value) }
    ensures { IfOk result (λ x. IsIndexOf rows.now x.value) }
{
    match index {
        Some(index) => {
            if rows.len() < index.heads.len() {
                Ok(index)
            } else {
                index_again(alloc, &index)
            }
        }
        None => index_of(alloc, rows),
    }
}

/// How many rows are looked through one by one.
const FEW: usize = 8;

/// The index of rows and one more, whose words come to this, if they are to have one.
pub(crate) fn index_more(
    alloc: Global,
    index: Option<Box<Index>>,
    rows: &Sheet,
    hash: u64,
) -> Result<Option<Box<Index>>, AllocError>
    requires indexed { IfSome index (λ x. IsIndexOf rows.now x.value) }
    ensures { (row : List ℕ) → hash ≡ hash_from 0 row → IfOk result (λ more. IfSome more (λ x. IsIndexOfMore rows.now row x.value)) }
{
    if rows.len() < FEW {
        return Ok(None);
    }
    let mut more = with_room(alloc, index, rows)?;
    more.link(hash)?;
    Ok(Some(more))
}

/// The number of a row with a mask beside it, which is looked for from the first on.
pub(crate) fn find_among(rows: &Sheet, row: &[u64], mask: &[u64]) -> Option<usize>
    requires as_long { length mask.now ≡ length row.now }
    ensures { IsFound rows.now (joined_words row.now mask.now) result }
{
    for n in 0..rows.len() {
        if is_joined(rows.at(n), row, mask) {
            return Some(n);
        }
    }
    None
}
