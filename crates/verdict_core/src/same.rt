//! Whether a job that is looked at again finds the same.
ghost use Rattle.std.specs.Prelude.{◌≡◌, IsTrue};

use group_core::entry::CatEntry;
use group_core::group::{Generation, Group};
use jcl_meaning::names::same_key;
use jcl_meaning::state::Place;
use jcl_meaning::store::{DataSet, SoloEntry, SoloSet};
use jname_core::serial::Serial;
use path_core::start::StartView;

/// Values that are told apart.
trait Same {
    /// Whether the other is the same. A value may be told apart from one that is the same, and never taken for another.
    fn is_same(&self, other: &Self) -> bool
        ensures { IsTrue result → self.now ≡ other.now };
}

fn are_same<T: Same>(a: &[T], b: &[T]) -> bool
    ensures { IsTrue result → a.now ≡ b.now }
{
    if a.len() != b.len() {
        return false;
    }
    for i in 0..a.len() {
        if !a[i].is_same(&b[i]) {
            return false;
        }
    }
    true
}

impl Same for Serial {
    fn is_same(&self, other: &Serial) -> bool {
        self.as_slice() == other.as_slice()
    }
}

impl Same for Place {
    fn is_same(&self, other: &Place) -> bool {
        if self.step != other.step || self.dd != other.dd {
            return false;
        }
        self.serial.is_same(&other.serial)
    }
}

impl Same for Generation {
    fn is_same(&self, other: &Generation) -> bool {
        if self.number != other.number {
            return false;
        }
        self.serial.is_same(&other.serial)
    }
}

fn is_same_group(a: &Group, b: &Group) -> bool
    ensures { IsTrue result → a.now ≡ b.now }
{
    if a.limit() != b.limit() || a.scratches() != b.scratches() {
        return false;
    }
    are_same(a.generations(), b.generations())
}

impl Same for CatEntry {
    fn is_same(&self, other: &CatEntry) -> bool {
        match (self, other) {
            (CatEntry::Volume(a), CatEntry::Volume(b)) => a.is_same(b),
            (CatEntry::Group(a), CatEntry::Group(b)) => is_same_group(a, b),
            _ => false,
        }
    }
}

impl Same for SoloEntry {
    fn is_same(&self, other: &SoloEntry) -> bool {
        if self.name.as_slice() != other.name.as_slice() {
            return false;
        }
        self.entry.is_same(&other.entry)
    }
}

fn is_same_day(a: Option<u32>, b: Option<u32>) -> bool
    ensures { IsTrue result → a ≡ b }
{
    match (a, b) {
        (None, None) => true,
        (Some(a), Some(b)) => a == b,
        _ => false,
    }
}

/// Sets without records, as an analysis sees them; others are told apart.
fn is_same_set(a: &DataSet, b: &DataSet) -> bool
    ensures { IsTrue result → a.now ≡ b.now }
{
    if a.tracks != b.tracks || a.records.len() != 0 || b.records.len() != 0 {
        return false;
    }
    is_same_day(a.expires, b.expires)
}

impl Same for SoloSet {
    fn is_same(&self, other: &SoloSet) -> bool {
        if !self.serial.is_same(&other.serial) || !same_key(&self.key, &other.key) {
            return false;
        }
        is_same_set(&self.set, &other.set)
    }
}

/// Whether a job that starts in the one way starts in the other.
pub(crate) fn is_same_start(a: &StartView, b: &StartView) -> bool
    ensures { IsTrue result → a.now ≡ b.now }
{
    if a.date.number() != b.date.number() || a.most_views != b.most_views {
        return false;
    }
    if !are_same(a.places.as_slice(), b.places.as_slice()) {
        return false;
    }
    if !are_same(a.store.volumes.as_slice(), b.store.volumes.as_slice()) {
        return false;
    }
    are_same(a.store.sets.as_slice(), b.store.sets.as_slice())
        && are_same(a.store.catalog.as_slice(), b.store.catalog.as_slice())
}
