//! Numbers by place, and the largest of each part of them: the first that is large enough is found in as many steps as the numbers can be
//! halved.
ghost use Rattle.std.specs.Prelude.{◌≡◌, ◌+◌, ◌*◌, ◌%◌, ◌^◌, ◌<◌, ◌≤◌, ℕ, IfOk, MatchOption, drop, length, replicate, slice_index, slice_set};
ghost use Rattle.extent_core.specs.Maxima.{AreLargest, IsFirst, IsFirstLargest, IsTree};

use std::alloc::{AllocError, Global};
use std::marker::Model;

/// A power of two of numbers.
#[derive(Drop)]
pub(crate) struct Maxima {
    /// How often the numbers can be halved: 12 times at most.
    height: usize,
    /// A tree: behind an unused node the root, and below node i the nodes 2i and 2i + 1. A node is the larger of the two below it, and the
    /// last half are the numbers.
    nodes: Vec<u16>,
}

impl Model for Maxima {
    ghost use Rattle.std.specs.Prelude.{◌≡◌, ◌≤◌, ◌+◌, ◌^◌, List, ℕ, drop, length};
    ghost use Rattle.extent_core.specs.Maxima.{IsTree};

    ghost Value = { List ℕ };

    ghost view = { λ m. drop (2 ^ m.height) m.nodes.items };

    ghost invariant = { λ m. IsTree m.height m.nodes.items };
}

impl Maxima {
    /// So many numbers at least, each 0.
    pub(crate) fn new(alloc: Global, count: usize) -> Result<Maxima, AllocError>
        requires { count ≤ 4096 }
        ensures room { IfOk result (λ m. count ≤ length m) }
        ensures zeros { IfOk result (λ m. (k : ℕ) → slice_index m k ≡ 0) }
    {
        let mut height = 0;
        let mut leaves = 1;
        while leaves < count {
            leaves *= 2;
            height += 1;
        }
        let nodes = vec![in alloc; 0u16; 2 * leaves]?;
        Ok(Maxima { height, nodes })
    }

    /// The number at a place.
    pub(crate) fn get(&self, place: usize) -> u16
        requires { place < length self.now }
        ensures { result ≡ slice_index self.now place }
    {
        self.nodes[self.nodes.len() / 2 + place]
    }

    /// Writes the number at a place.
    pub(crate) fn set(&mut self, place: usize, number: u16)
        requires { place < length self.old }
        ensures { self.new ≡ slice_set self.old place number }
    {
        let leaf = self.nodes.len() / 2 + place;
        write(self.nodes.as_mut_slice(), leaf, number);
    }

    /// The place of the first number that is at least so large.
    pub(crate) fn first(&self, least: u16) -> Option<usize>
        ensures { MatchOption result ((k : ℕ) → k < length self.now → slice_index self.now k < least) (IsFirst self.now least) }
    {
        if self.nodes[1] < least {
            return None;
        }
        let leaf = first_leaf(self.nodes.as_slice(), self.height, least);
        Some(leaf - self.nodes.len() / 2)
    }

    /// The place of the largest number, of equals the first.
    pub(crate) fn largest(&self) -> usize
        ensures { IsFirstLargest self.now result }
    {
        let leaf = first_leaf(self.nodes.as_slice(), self.height, self.nodes[1]);
        leaf - self.nodes.len() / 2
    }
}

/// Writes a number, and the largest above it.
fn write(nodes: &mut [u16], leaf: usize, number: u16)
    requires tree { AreLargest nodes.old }
    requires pairs { length nodes.old % 2 ≡ 0 }
    requires leaf { leaf < length nodes.old }
    requires last { length nodes.old ≤ 2 * leaf }
    ensures tree { AreLargest nodes.new }
    ensures leaves { (k : ℕ) → length nodes.old ≤ 2 * k → slice_index nodes.new k ≡ slice_index (slice_set nodes.old leaf number) k }
{
    nodes[leaf] = number;
    let mut node = leaf;
    while node > 1 {
        node /= 2;
        let largest = nodes[2 * node].max(nodes[2 * node + 1]);
        if nodes[node] == largest {
            return;
        }
        nodes[node] = largest;
    }
}

/// The first number that is at least so large, as a node.
fn first_leaf(nodes: &[u16], height: usize, least: u16) -> usize
    requires tree { IsTree height nodes.now }
    requires enough { least ≤ slice_index nodes.now 1 }
    ensures lower { 2 ^ height ≤ result }
    ensures upper { result < length nodes.now }
    ensures enough { least ≤ slice_index nodes.now result }
    ensures before { (k : ℕ) → 2 ^ height ≤ k → k < result → slice_index nodes.now k < least }
{
    let mut node = 1;
    for _level in 0..height {
        node *= 2;
        if nodes[node] < least {
            node += 1;
        }
    }
    node
}
