//! A row of words: the number of a scene, then bits, the first of which tells of an ABEND, and the others of tests.
ghost use Rattle.std.specs.Prelude.{◌≡◌, ◌<◌, ◌≤◌, ◌+◌, ◌*◌, ◌/◌, ◌^◌, ◌||◌, ℕ, IfOk, false, length, slice_index_or};
ghost use Rattle.std.specs.List.{list_any};
ghost use Rattle.packed_core.specs.Words.{AreWords, bit, bits_from, joined_words};

use std::alloc::{AllocError, Global};

/// The number of a row's scene.
pub(crate) fn number_in(row: &[u64]) -> usize
    requires { 0 < length row.now }
    ensures { result ≡ slice_index_or row.now 0 0 }
{
    row[0] as usize
}

/// Bit i of a row.
pub(crate) fn bit_of(row: &[u64], i: usize) -> bool
    requires { i / 64 + 1 < length row.now }
    ensures { result ≡ bit row.now i }
{
    (row[i / 64 + 1] >> (i % 64)) & 1 == 1
}

/// Sets bit i of a row, if it is to be.
pub(crate) fn mark(row: &mut [u64], i: usize, b: bool)
    requires there { i / 64 + 1 < length row.old }
    requires within { AreWords row.old }
    ensures here { bit row.new i ≡ (b || bit row.old i) }
    ensures elsewhere { (k : ℕ) → (k ≡ i → ⊥) → bit row.new k ≡ bit row.old k }
    ensures first { slice_index_or row.new 0 0 ≡ slice_index_or row.old 0 0 }
    ensures within { AreWords row.new }
{
    if b {
        row[i / 64 + 1] |= 1 << (i % 64);
    }
}

/// Clears bit i of a row.
fn unmark(row: &mut [u64], i: usize)
    requires there { i / 64 + 1 < length row.old }
    requires within { AreWords row.old }
    ensures here { bit row.new i ≡ false }
    ensures elsewhere { (k : ℕ) → (k ≡ i → ⊥) → bit row.new k ≡ bit row.old k }
    ensures first { slice_index_or row.new 0 0 ≡ slice_index_or row.old 0 0 }
    ensures within { AreWords row.new }
{
    row[i / 64 + 1] &= !(1 << (i % 64));
}

/// Clears so many bits of a row.
pub(crate) fn clear(row: &mut [u64], from: usize, count: usize)
    requires there { from + count + 64 ≤ 64 * length row.old }
    requires small { from + count < 2 ^ 64 }
    requires within { AreWords row.old }
    ensures cleared { (k : ℕ) → from ≤ k → k < from + count → bit row.new k ≡ false }
    ensures before { (k : ℕ) → k < from → bit row.new k ≡ bit row.old k }
    ensures after { (k : ℕ) → from + count ≤ k → bit row.new k ≡ bit row.old k }
    ensures first { slice_index_or row.new 0 0 ≡ slice_index_or row.old 0 0 }
    ensures within { AreWords row.new }
{
    for i in 0..count {
        unmark(row, from + i);
    }
}

/// Whether one of so many bits is set.
pub(crate) fn some_bit(row: &[u64], from: usize, count: usize) -> bool
    requires there { from + count + 64 ≤ 64 * length row.now }
    requires small { from + count < 2 ^ 64 }
    ensures { result ≡ list_any (λ b. b) (bits_from count from row.now) }
{
    for i in 0..count {
        if bit_of(row, from + i) {
            return true;
        }
    }
    false
}

/// A row with the bits of another beside its own.
pub(crate) fn joined(alloc: Global, row: &[u64], mask: &[u64]) -> Result<Vec<u64>, AllocError>
    requires as_long { length mask.now ≡ length row.now }
    requires unnumbered { slice_index_or mask.now 0 0 ≡ 0 }
    ensures words { IfOk result (λ all. all.items ≡ joined_words row.now mask.now) }
    ensures size { IfOk result (λ all. length all.items ≡ length row.now) }
    ensures first { IfOk result (λ all. slice_index_or all.items 0 0 ≡ slice_index_or row.now 0 0) }
    ensures bits { IfOk result (λ all. (k : ℕ) → bit all.items k ≡ (bit mask.now k || bit row.now k)) }
    ensures within { AreWords row.now → AreWords mask.now → IfOk result (λ all. AreWords all.items) }
{
    let mut all = Vec::with_capacity(alloc, row.len())?;
    for (j, word) in row.iter().enumerate() {
        all.push(*word | mask[j])?;
    }
    Ok(all)
}
