//! The store of volumes with their tracks that the job of a case finds. There is none where a volume, a set or an entry of it cannot be.
use crate::found::{CaseVolume, Found, Used};
use cat_core::catalog::Catalog;
use group_core::entry::CatEntry;
use group_core::group::Group;
use jcl_meaning::store::{SoloEntry, SoloSet};
use jcl_plan::plan::MOST_TRACKS;
use jname_core::ds_name::DsName;
use mount_core::mounted::Mounted;
use mount_core::place::KeptPlace;
use plain::listed::Listed;
use row_table::told::Told;
use shared_core::key::world_key;
use shared_core::store::SharedStore;
use std::alloc::Global;
use vtoc_core::entry::{Extent, SetKey};
use vtoc_core::fault::VolumeFault;

/// The tracks that no set has.
fn unusable_of(alloc: Global, used: &[Used], told: &mut Told) -> Option<Listed<Extent>> {
    let mut extents = Listed::empty(alloc);
    for tracks in used {
        let more = tracks.last.checked_sub(tracks.first)?;
        told.over(extents.push(Extent {
            start: tracks.first,
            tracks: more.saturating_add(1),
        }));
    }
    Some(extents)
}

/// An empty volume.
fn mounted(alloc: Global, volume: &CaseVolume, told: &mut Told) -> Option<Mounted> {
    if volume.tracks > MOST_TRACKS {
        return None;
    }
    let unusable = unusable_of(alloc, volume.used.as_slice(), told)?;
    told.got(Mounted::new(alloc, volume.serial, volume.tracks, unusable.as_slice()))
}

fn mounted_all(alloc: Global, volumes: &[CaseVolume], told: &mut Told) -> Option<Vec<Mounted>> {
    let mut all = Vec::new(alloc);
    for volume in volumes {
        let mounted = mounted(alloc, volume, told)?;
        if all.push(mounted).is_err() {
            told.want();
        }
    }
    Some(all)
}

/// Whether a volume grants what a case asks.
fn is_granted(answer: Result<(), VolumeFault>, told: &mut Told) -> bool {
    match answer {
        Ok(()) => true,
        Err(VolumeFault::Memory) => {
            told.want();
            false
        }
        Err(_) => false,
    }
}

/// A place at which no tracks are kept: steps count from 1.
const NOWHERE: KeptPlace = KeptPlace {
    job: 0,
    step: 0,
    dd: 0,
};

/// Puts a set with its records on a volume. Whether it can stand there.
fn put_on(
    alloc: Global,
    mounted: &mut Mounted,
    key: SetKey,
    set: &SoloSet,
    told: &mut Told,
) -> bool {
    let Ok(tracks) = u16::try_from(set.set.tracks) else {
        return false;
    };
    let made = mounted.make(alloc, &NOWHERE, key, tracks, set.set.expires);
    if !is_granted(made, told) {
        return false;
    }
    for text in set.set.records.as_slice() {
        if !is_granted(mounted.append(&key, *text), told) {
            return false;
        }
    }
    true
}

/// Puts a set on the volume of its serial.
fn put_set(
    alloc: Global,
    volumes: &mut [Mounted],
    job: u16,
    set: &SoloSet,
    told: &mut Told,
) -> Option<()> {
    let key = world_key(job, &set.key)?;
    for at in 0..volumes.len() {
        if volumes[at].serial() == set.serial {
            return if put_on(alloc, &mut volumes[at], key, set, told) {
                Some(())
            } else {
                None
            };
        }
    }
    None
}

/// Enters a group with its generations.
fn put_group(
    alloc: Global,
    catalog: &mut Catalog,
    base: &DsName,
    group: &Group,
    told: &mut Told,
) -> Option<()> {
    let made = catalog.make_group(alloc, *base, group.limit(), group.scratches());
    if made.is_err() {
        told.want();
        return None;
    }
    for generation in group.generations() {
        if generation.number == 0
            || generation.number > 9999
            || catalog
                .enter_generation(base, generation.number, generation.serial)
                .is_err()
        {
            return None;
        }
    }
    Some(())
}

fn put_entry(
    alloc: Global,
    catalog: &mut Catalog,
    entry: &SoloEntry,
    told: &mut Told,
) -> Option<()> {
    match &entry.entry {
        CatEntry::Volume(serial) => told.got(catalog.put(entry.name, *serial)),
        CatEntry::Group(group) => put_group(alloc, catalog, &entry.name, group, told),
    }
}

fn catalog_of(alloc: Global, entries: &[SoloEntry], told: &mut Told) -> Option<Catalog> {
    let mut catalog = Catalog::new(alloc);
    for entry in entries {
        put_entry(alloc, &mut catalog, entry, told)?;
    }
    Some(catalog)
}

/// The store of volumes that the job of this number finds.
pub(crate) fn shared_of(
    alloc: Global,
    found: &Found,
    job: u16,
    told: &mut Told,
) -> Option<SharedStore> {
    let mut volumes = mounted_all(alloc, found.volumes.as_slice(), told)?;
    for set in found.store.sets.as_slice() {
        put_set(alloc, volumes.as_mut_slice(), job, set, told)?;
    }
    Some(SharedStore {
        alloc,
        catalog: catalog_of(alloc, found.store.catalog.as_slice(), told)?,
        volumes: Listed::new(volumes),
    })
}
