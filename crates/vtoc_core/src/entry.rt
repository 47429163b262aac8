//! What a volume's table of contents holds.
ghost use Rattle.std.specs.Prelude.{◌≡◌, ◌≤◌, ◌*◌, length};
ghost use Rattle.vtoc_core.specs.Extents.{tracks_in};
ghost use Rattle.vtoc_core.specs.Entries.{same_key};

use arrayvec::ArrayVec;
pub use extent_core::extent::Extent;
use jname_core::ds_name::DsName;
use jname_core::name8::Name8;
use set_core::records::Records;
use std::marker::Model;

/// Which set it is among all that stand on volumes. A temporary set is its job's. In order the named sets come first, by their names,
/// then the temporary ones, by job and name, then those without a name, by job, step and DD.
#[derive(Clone, Copy, PartialEq, Eq, PartialOrd, Ord)]
pub enum SetKey {
    Named(DsName),
    Temporary { job: u16, name: Name8 },
    Unnamed { job: u16, step: u16, dd: u16 },
}

impl SetKey {
    /// Whether both are keys of one set.
    pub fn is_same(&self, other: &SetKey) -> bool
        ensures { result ≡ same_key self.now other.now }
    {
        match (self, other) {
            (SetKey::Named(a), SetKey::Named(b)) => a == b,
            (SetKey::Temporary { job, name }, SetKey::Temporary { job: of, name: by }) => {
                job == of && name == by
            }
            (
                SetKey::Unnamed { job, step, dd },
                SetKey::Unnamed {
                    job: of,
                    step: at,
                    dd: by,
                },
            ) => job == of && step == at && dd == by,
            _ => false,
        }
    }
}

/// How many tracks some extents have together.
pub fn tracks_in(extents: &[Extent]) -> u32
    requires { length extents.now ≤ 16 }
    ensures value { result ≡ tracks_in extents.now }
    ensures most { result ≤ 65535 * length extents.now }
{
    match extents.split_first() {
        None => 0,
        Some((first, others)) => u32::from(first.tracks) + tracks_in(others),
    }
}

/// A set on a volume: its extents in order, sixteen at most, the day, counted from 1900/001 as 0, before which it is not to be deleted,
/// and its records.
#[derive(Drop)]
pub struct SetEntry {
    pub extents: ArrayVec<Extent, 16>,
    pub expires: Option<u32>,
    pub records: Records,
}

impl SetEntry {
    /// How many tracks it has.
    pub fn tracks(&self) -> u32
        ensures { result ≡ tracks_in self.now.extents.items }
    {
        tracks_in(self.extents.as_slice())
    }
}

/// Tracks set aside: five extents at most. It must be given back, made a set, or its extents be kept.
pub struct ExtentList {
    pub(crate) extents: ArrayVec<Extent, 5>,
}

impl Model for ExtentList {
    ghost use Rattle.std.specs.Prelude.{List};
    ghost use Rattle.extent_core.specs.declared.extent.Extent.{Extent};

    ghost Value = { List Extent };

    ghost view = { λ l. l.extents.items };
}

impl ExtentList {
    pub fn extents(&self) -> &[Extent]
        ensures { result.now ≡ self.now }
    {
        self.extents.as_slice()
    }

    /// Its extents, for a keeper of what is aside.
    pub fn into_extents(self) -> ArrayVec<Extent, 5>
        ensures { result.items ≡ self }
    {
        let ExtentList { extents } = self;
        extents
    }

    /// The list of extents that are kept aside.
    pub fn of(kept: ArrayVec<Extent, 5>) -> ExtentList
        ensures { result ≡ kept.items }
    {
        ExtentList { extents: kept }
    }
}
