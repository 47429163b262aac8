//! Sets by their places.
ghost use Rattle.std.specs.Prelude.{◌≡◌, ◌+◌, ◌^◌, ◌≤◌, None, Some, IfOk, IsSomeAnd, OnErr, OnOk, true};
ghost use Rattle.std.specs.Option.{option_copied};
ghost use Rattle.jcl_meaning.specs.Programs.{appended, emptied, grown_by};
ghost use Rattle.jcl_meaning.specs.Stores.{cut, set_in};
ghost use Rattle.seen_store.specs.Listing.{AreSets, ChangesSet, WritesSet, sets_of};

use crate::place::SetPlace;
use jcl_meaning::store::{DataSet, SoloSet};
use jcl_plan::plan::{RECORDS_A_TRACK, Record};
use jname_core::key::Key;
use jname_core::serial::Serial;
use std::alloc::{AllocError, Global};
use std::collections::BTreeMap;

pub(crate) type Sets = BTreeMap<SetPlace, DataSet>;

/// The set of a key on a volume.
pub(crate) fn set_at<'a>(sets: &'a Sets, key: &Key, serial: Serial) -> Option<&'a DataSet>
    ensures { option_copied result ≡ set_in (sets_of sets.now.entries) key.now serial }
{
    let place = SetPlace { key: *key, serial };
    sets.get(&place)
}

/// Puts a set in place of what a volume has of its key. An `Err` changes nothing.
pub(crate) fn put_set(
    sets: &mut Sets,
    key: &Key,
    serial: Serial,
    set: DataSet,
) -> Result<(), AllocError>
    ensures ok { OnOk result (WritesSet sets.old.entries sets.new.entries key.now serial (Some set)) }
    ensures err { OnErr result (sets.new.entries ≡ sets.old.entries) }
{
    let place = SetPlace { key: *key, serial };
    match sets.insert(place, set) {
        Ok(_) => Ok(()),
        Err(_) => Err(AllocError),
    }
}

/// Takes the set of a key off a volume.
pub(crate) fn drop_set(sets: &mut Sets, key: &Key, serial: Serial)
    ensures { WritesSet sets.old.entries sets.new.entries key.now serial None }
{
    let place = SetPlace { key: *key, serial };
    sets.remove(&place);
}

/// Adds tracks to a set. It takes no memory; more than a number of tracks counts, and no other, is answered as want of it. An `Err` changes nothing.
pub(crate) fn grow_set(
    sets: &mut Sets,
    key: &Key,
    serial: Serial,
    tracks: u16,
) -> Result<(), AllocError>
    ensures ok { OnOk result (ChangesSet (grown_by tracks) sets.old.entries sets.new.entries key.now serial) }
    ensures err { OnErr result (sets.new.entries ≡ sets.old.entries) }
    ensures past { OnErr result (IsSomeAnd (set_in (sets_of sets.old.entries) key.now serial) (λ set. 2 ^ 64 ≤ set.tracks + tracks)) }
{
    let place = SetPlace { key: *key, serial };
    match sets.get_mut(&place) {
        Some(set) => match set.tracks.checked_add(u64::from(tracks)) {
            Some(more) => {
                set.tracks = more;
                Ok(())
            }
            None => Err(AllocError),
        },
        None => Ok(()),
    }
}

/// Takes the records of a set away.
pub(crate) fn empty_set(sets: &mut Sets, key: &Key, serial: Serial)
    ensures { ChangesSet (emptied true) sets.old.entries sets.new.entries key.now serial }
{
    let place = SetPlace { key: *key, serial };
    match sets.get_mut(&place) {
        Some(set) => set.records.clear(),
        None => {}
    }
}

/// Puts a record behind those of a set. An `Err` changes nothing.
pub(crate) fn append_to(
    sets: &mut Sets,
    key: &Key,
    serial: Serial,
    text: &Record,
) -> Result<(), AllocError>
    ensures ok { OnOk result (ChangesSet (appended text.now) sets.old.entries sets.new.entries key.now serial) }
    ensures err { OnErr result (sets.new.entries ≡ sets.old.entries) }
{
    let place = SetPlace { key: *key, serial };
    match sets.get_mut(&place) {
        Some(set) => match set.records.push(*text) {
            Ok(()) => Ok(()),
            Err(error) => Err(error),
        },
        None => Ok(()),
    }
}

/// Cuts a set to the tracks that its records fill.
pub(crate) fn trim_set(sets: &mut Sets, key: &Key, serial: Serial)
    ensures { ChangesSet cut sets.old.entries sets.new.entries key.now serial }
{
    let place = SetPlace { key: *key, serial };
    match sets.get_mut(&place) {
        Some(set) => {
            let used = set.records.len().div_ceil(RECORDS_A_TRACK) as u64;
            set.tracks = set.tracks.min(used);
        }
        None => {}
    }
}

/// The sets of a list by their places: of two in one place the first.
pub(crate) fn sets_by_place(alloc: Global, list: &[SoloSet]) -> Result<Sets, AllocError>
    ensures { IfOk result (λ sets. AreSets sets.entries list.now) }
{
    let mut sets = BTreeMap::new(alloc);
    let mut left = list.len();
    while left > 0 {
        left -= 1;
        let x = &list[left];
        put_set(&mut sets, &x.key, x.serial, x.set.clone()?)?;
    }
    Ok(sets)
}

pub(crate) fn copy_of_sets(sets: &Sets) -> Result<Sets, AllocError>
    ensures { IfOk result (λ copy. copy.entries ≡ sets.now.entries) }
{
    sets.clone()
}
