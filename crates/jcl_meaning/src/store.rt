//! The store that a job runs in.
ghost use Rattle.std.specs.Prelude.{◌≡◌, IfOk};

use group_core::entry::CatEntry;
use jcl_plan::plan::Record;
use jname_core::ds_name::DsName;
use jname_core::key::Key;
use jname_core::serial::Serial;
use plain::listed::Listed;
use std::alloc::{AllocError, Global};

/// A set on a volume: its tracks, the day (from 1900/001 as 0) before which it is not to be deleted, and its records.
#[derive(Clone, Drop)]
pub struct DataSet {
    pub tracks: u64,
    pub expires: Option<u32>,
    pub records: Listed<Record>,
}

/// A set of a store, by its volume and its key.
#[derive(Clone, Drop)]
pub struct SoloSet {
    pub serial: Serial,
    pub key: Key,
    pub set: DataSet,
}

/// An entry of a store's catalog.
#[derive(Clone, Drop)]
pub struct SoloEntry {
    pub name: DsName,
    pub entry: CatEntry,
}

/// Volumes as configured, sets and catalog. Of two sets or entries in one place the first counts.
#[derive(Drop)]
pub struct SoloStore {
    pub volumes: Listed<Serial>,
    pub sets: Listed<SoloSet>,
    pub catalog: Listed<SoloEntry>,
}

fn copies_of_sets(alloc: Global, sets: &[SoloSet]) -> Result<Listed<SoloSet>, AllocError>
    ensures { IfOk result (λ copies. copies ≡ sets.now) }
{
    let mut copies = Listed::empty(alloc);
    for set in sets {
        copies.push(set.clone()?)?;
    }
    Ok(copies)
}

fn copies_of_entries(alloc: Global, entries: &[SoloEntry]) -> Result<Listed<SoloEntry>, AllocError>
    ensures { IfOk result (λ copies. copies ≡ entries.now) }
{
    let mut copies = Listed::empty(alloc);
    for entry in entries {
        copies.push(entry.clone()?)?;
    }
    Ok(copies)
}

impl SoloStore {
    pub fn copy_of(&self, alloc: Global) -> Result<SoloStore, AllocError>
        ensures { IfOk result (λ store. store ≡ self.now) }
    {
        let volumes = self.volumes.clone()?;
        let sets = copies_of_sets(alloc, self.sets.as_slice())?;
        let catalog = copies_of_entries(alloc, self.catalog.as_slice())?;
        Ok(SoloStore {
            volumes,
            sets,
            catalog,
        })
    }
}
