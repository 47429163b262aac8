//! Short texts, which lie in the value itself.
ghost use Rattle.std.specs.Prelude.{◌≡◌, ◌+◌, ◌-◌, ◌≤◌, ◌==◌, ◌++◌, List, length, take, drop, replicate, Some, nat_eq, refl};
ghost use Rattle.std.specs.Ordering.{nat_cmp};
ghost use Rattle.std.specs.Cmp.{partial_equiv_from_equiv};
ghost use Rattle.plain.specs.Words.{worth};
ghost use Rattle.std.specs.Cmp.Lexicographic.{pointwise, slice_cmp, nat_list_eq_equiv, nat_list_cmp_total, texts_po, texts_ties};

use std::cmp::Ordering;
use std::marker::Model;

/// At most `N` bytes that a contract sees as their list. It never allocates.
#[derive(Clone, Copy)]
pub struct Short<const N: usize> {
    bytes: [u8; N],
    len: usize,
}

impl<const N: usize> Model for Short<N> {
    ghost use Rattle.std.specs.Prelude.{◌≡◌, ◌≤◌, ◌-◌, ◌++◌, ℕ, List, length, take, drop, replicate};

    ghost Value = { List ℕ };

    ghost view = { λ s. take s.len s.bytes };

    ghost invariant = { λ s. (s.len ≤ N) × (length s.bytes ≡ N) × (s.bytes ≡ take s.len s.bytes ++ replicate (N - s.len) 0) };

    ghost inverse = { λ t. record { bytes = t ++ replicate (N - length t) 0; len = length t } };
}

impl<const N: usize> Short<N> {
    pub fn new(text: &[u8]) -> Short<N>
        requires { length text.now ≤ N }
        ensures { result ≡ text.now }
    {
        let mut bytes = [0; N];
        let len = text.len();
        bytes[..len].copy_from_slice(text);
        Short { bytes, len }
    }

    pub fn as_slice(&self) -> &[u8]
        ensures value { result.now ≡ self.now }
        ensures short { length result.now ≤ N }
    {
        &self.bytes[..self.len]
    }
}

/// The order of two texts, byte by byte.
fn order_by_bytes(a: &[u8], b: &[u8]) -> Ordering
    ensures { result ≡ slice_cmp nat_cmp a.now b.now }
{
    let both = a.len().min(b.len());
    let mut i = 0;
    while i < both {
        if a[i] != b[i] {
            return a[i].cmp(&b[i]);
        }
        i += 1;
    }
    a.len().cmp(&b.len())
}

/// Eight bytes from a place on as one number, in which the first counts most: so two such numbers differ as the bytes do.
fn word_at(bytes: &[u8], at: usize) -> u64
    requires { at + 8 ≤ length bytes.now }
    ensures { result ≡ worth (take 8 (drop at bytes.now)) }
{
    u64::from_be_bytes([
        bytes[at],
        bytes[at + 1],
        bytes[at + 2],
        bytes[at + 3],
        bytes[at + 4],
        bytes[at + 5],
        bytes[at + 6],
        bytes[at + 7],
    ])
}

/// Four bytes from the first on as one number, in the same way.
fn half_word(bytes: &[u8]) -> u32
    requires { 4 ≤ length bytes.now }
    ensures { result ≡ worth (take 4 bytes.now) }
{
    u32::from_be_bytes([bytes[0], bytes[1], bytes[2], bytes[3]])
}

/// The order of two texts that are as long as one another, four bytes at once and then byte by byte.
fn order_by_halves(a: &[u8], b: &[u8]) -> Ordering
    requires { length a.now ≡ length b.now }
    ensures { result ≡ slice_cmp nat_cmp a.now b.now }
{
    if a.len() < 4 {
        return order_by_bytes(a, b);
    }
    let x = half_word(a);
    let y = half_word(b);
    if x != y {
        return x.cmp(&y);
    }
    order_by_bytes(&a[4..], &b[4..])
}

/// The order of two texts that are as long as one another, eight bytes at a time.
fn order(a: &[u8], b: &[u8]) -> Ordering
    requires { length a.now ≡ length b.now }
    ensures { result ≡ slice_cmp nat_cmp a.now b.now }
{
    let len = a.len();
    let mut i = 0;
    while len - i >= 8 {
        let x = word_at(a, i);
        let y = word_at(b, i);
        if x != y {
            return x.cmp(&y);
        }
        i += 8;
    }
    order_by_halves(&a[i..], &b[i..])
}

impl<const N: usize> PartialEq for Short<N> {
    ghost eq = { λ s t. pointwise nat_eq s t };

    ghost laws = { partial_equiv_from_equiv nat_list_eq_equiv };

    fn eq(&self, other: &Self) -> bool {
        self.cmp(other).is_eq()
    }
}

impl<const N: usize> Eq for Short<N> {
    ghost laws = { nat_list_eq_equiv };
}

impl<const N: usize> PartialOrd for Short<N> {
    ghost partial_cmp = { λ s t. Some (slice_cmp nat_cmp s t) };

    ghost laws = { texts_po };

    fn partial_cmp(&self, other: &Self) -> Option<Ordering> {
        Some(self.cmp(other))
    }
}

impl<const N: usize> Ord for Short<N> {
    ghost cmp = { λ s t. slice_cmp nat_cmp s t };

    ghost total = { nat_list_cmp_total };

    ghost matches_partial_cmp = { λ s t. refl };

    ghost matches_eq = { λ s t. texts_ties s t };

    /// The bytes after a text are zeros, so the whole of both is compared, and their lengths decide where that is equal.
    fn cmp(&self, other: &Self) -> Ordering {
        order(&self.bytes, &other.bytes).then(self.len.cmp(&other.len))
    }
}
