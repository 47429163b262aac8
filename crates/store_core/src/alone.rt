//! The store of a job alone, as lists.
ghost use Rattle.std.specs.Prelude.{◌≡◌, ◌+◌, ◌^◌, ◌<◌, ◌≤◌, Some, None, IfSome, IfNone, IsSomeAnd, OnOk, OnErr, List, refl, true, ℕ};
ghost use Rattle.std.proofs.Common.{◌∙◌};
ghost use Rattle.std.specs.List.{position};
ghost use Rattle.group_core.specs.Entries.{group_in};
ghost use Rattle.group_core.specs.Groups.{RollsInRange};
ghost use Rattle.group_core.specs.declared.entry.CatEntry.TheVariants as entry;
ghost use Rattle.jcl_meaning.specs.Lists.{is_at, is_of};
ghost use Rattle.jcl_meaning.specs.Programs.{appended, emptied, grown_by};
ghost use Rattle.jcl_meaning.specs.Stores.{cut_at, entry_in, group_of, member_of, set_in, store_of, uncatalogued_by, with_set};
ghost use Rattle.store_core.specs.Actions.{changed_at, facts_of};
ghost use Rattle.store_core.specs.Entered.{entry_with, entry_without, LosesNumber};
ghost use Rattle.store_core.specs.EnteredNumbers.{EntersNumber, TakesNumber, with_number};
ghost use Rattle.store_core.specs.Places.{IsFirstAt, IsFirstOf};

use crate::job_store::{JobStore, RoomFault, SetFacts};
use crate::store::{
    group_of, is_at, is_of, member_of, put_entry, remove_entry, scratch, set_in, volume_of,
};
use group_core::entry::CatEntry;
use group_core::group::{Group, Rolled};
use jcl_meaning::state::Place;
use jcl_meaning::store::{DataSet, SoloEntry, SoloSet, SoloStore};
use jcl_plan::plan::{RECORDS_A_TRACK, Record};
use jname_core::ds_name::DsName;
use jname_core::key::Key;
use jname_core::serial::Serial;
use plain::listed::Listed;
use std::alloc::{AllocError, Global};
use std::mem;

/// A job's store as lists, and the answer to the next growth that it asks for.
#[derive(Drop)]
pub struct Alone {
    pub alloc: Global,
    pub store: SoloStore,
    pub growth: bool,
}

/// What is known of a set.
fn facts_of(set: &DataSet) -> SetFacts
    ensures { result ≡ facts_of set.now }
{
    SetFacts {
        tracks: set.tracks,
        expires: set.expires,
        records: set.records.len(),
    }
}

impl JobStore for Alone {
    ghost seen = { λ _ s. store_of s.store };

    ghost Rest = { List (List ℕ) };

    ghost rest = { λ _ s. s.store.volumes };

    ghost gives_up = { λ old new. new ≡ old };

    ghost takes = { λ _ _ old new. new ≡ old };

    ghost grants_new = { λ _ _ _ _ _. true };

    ghost grants_growth = { λ _ s _ _ _. s.growth };

    ghost gives_nothing = { λ _. refl };

    ghost gives_both = { λ _ _ _ p q. q ∙ p };

    ghost takes_none = { λ _ _ _ p. p };

    fn set(&self, _job: u16, key: &Key, serial: Serial) -> Option<SetFacts> {
        match set_in(&self.store, key, serial) {
            Some(set) => Some(facts_of(set)),
            None => None,
        }
    }

    fn record(&self, _job: u16, key: &Key, serial: Serial, place: usize) -> Option<Record> {
        match set_in(&self.store, key, serial) {
            Some(set) => set.records.as_slice().get(place).copied(),
            None => None,
        }
    }

    fn group(&self, _job: u16, base: &DsName) -> Option<&Group> {
        group_of(&self.store, base)
    }

    fn volume(&self, _job: u16, name: &DsName) -> Option<Serial> {
        volume_of(&self.store, name)
    }

    fn make(
        &mut self,
        _job: u16,
        key: &Key,
        place: &Place,
        tracks: u16,
        expires: Option<u32>,
    ) -> Result<(), RoomFault> {
        let set = DataSet {
            tracks: u64::from(tracks),
            expires,
            records: Listed::empty(self.alloc),
        };
        match make_in(&mut self.store, key, place.serial, set) {
            Ok(()) => Ok(()),
            Err(_) => Err(RoomFault::Memory),
        }
    }

    fn grow(&mut self, _job: u16, key: &Key, serial: Serial, tracks: u16) -> Result<(), RoomFault> {
        if !self.growth {
            return Err(RoomFault::NotGranted);
        }
        match grow_set(self.alloc, &mut self.store, key, serial, tracks) {
            Ok(()) => Ok(()),
            Err(_) => Err(RoomFault::Memory),
        }
    }

    fn empty(&mut self, _job: u16, key: &Key, serial: Serial) {
        empty_set(self.alloc, &mut self.store, key, serial);
    }

    fn append(
        &mut self,
        _job: u16,
        key: &Key,
        serial: Serial,
        text: &Record,
    ) -> Result<(), AllocError> {
        append_to(self.alloc, &mut self.store, key, serial, text)
    }

    fn trim(&mut self, _job: u16, key: &Key, serial: Serial) {
        trim_set(self.alloc, &mut self.store, key, serial);
    }

    fn scratch(&mut self, _job: u16, key: &Key, serial: Serial) {
        scratch(self.alloc, &mut self.store, key, serial);
    }

    fn enter(&mut self, _job: u16, name: &DsName, serial: Serial) -> Result<(), AllocError> {
        put_entry(self.alloc, &mut self.store, name, CatEntry::Volume(serial))
    }

    fn uncatalog(&mut self, _job: u16, name: &DsName) {
        uncatalog_name(self.alloc, &mut self.store, name);
    }

    fn enter_number(&mut self, _job: u16, base: &DsName, number: u16, serial: Serial) -> Rolled {
        enter_number_of(self.alloc, &mut self.store, base, number, serial)
    }
}

/// Takes a name out of the catalog: of a group's generation the number.
fn uncatalog_name(alloc: Global, store: &mut SoloStore, name: &DsName)
    ensures entry { store_of store.new ≡ uncatalogued_by (member_of (store_of store.old) name.now) (store_of store.old) name.now }
    ensures volumes { store.new.volumes ≡ store.old.volumes }
{
    match member_of(store, name) {
        Some((number, _)) => drop_number_of(alloc, store, &name.base_of(), number),
        None => remove_entry(alloc, store, name),
    }
}

fn position_of(sets: &[SoloSet], key: &Key, serial: Serial) -> Option<usize>
    ensures { result ≡ position (is_at key.now serial) sets.now }
{
    sets.iter().position(|x| is_at(key, serial, x))
}

/// Where the set of a key on a volume stands, from 0.
fn place_of(sets: &[SoloSet], key: &Key, serial: Serial) -> Option<usize>
    ensures there { IfSome result (IsFirstAt sets.now key.now serial) }
    ensures missing { IfNone result (set_in sets.now key.now serial ≡ None) }
{
    position_of(sets, key, serial)
}

/// Adds tracks to a set. It takes no memory; more than a number of tracks counts, and no other, is answered as want of it. An `Err` changes nothing.
pub(crate) fn grow_set(
    alloc: Global,
    store: &mut SoloStore,
    key: &Key,
    serial: Serial,
    tracks: u16,
) -> Result<(), AllocError>
    ensures ok { OnOk result (store_of store.new ≡ changed_at (grown_by tracks) (store_of store.old) key.now serial) }
    ensures err { OnErr result (store.new ≡ store.old) }
    ensures past { OnErr result (IsSomeAnd (set_in store.old.sets key.now serial) (λ set. 2 ^ 64 ≤ set.tracks + tracks)) }
    ensures volumes { store.new.volumes ≡ store.old.volumes }
{
    let Some(at) = place_of(store.sets.as_slice(), key, serial) else {
        return Ok(());
    };
    let has = store.sets.as_slice()[at].set.tracks;
    let Some(more) = has.checked_add(u64::from(tracks)) else {
        return Err(AllocError);
    };
    let mut sets = mem::replace(&mut store.sets, Listed::empty(alloc)).into_vec();
    sets[at].set.tracks = more;
    store.sets = Listed::new(sets);
    Ok(())
}

/// Takes the records of a set away.
pub(crate) fn empty_set(alloc: Global, store: &mut SoloStore, key: &Key, serial: Serial)
    ensures sets { store_of store.new ≡ changed_at (emptied true) (store_of store.old) key.now serial }
    ensures volumes { store.new.volumes ≡ store.old.volumes }
{
    let Some(at) = place_of(store.sets.as_slice(), key, serial) else {
        return;
    };
    let mut sets = mem::replace(&mut store.sets, Listed::empty(alloc)).into_vec();
    sets[at].set.records.clear();
    store.sets = Listed::new(sets);
}

/// Puts a record behind those of a set. An `Err` changes nothing.
pub(crate) fn append_to(
    alloc: Global,
    store: &mut SoloStore,
    key: &Key,
    serial: Serial,
    text: &Record,
) -> Result<(), AllocError>
    ensures ok { OnOk result (store_of store.new ≡ changed_at (appended text.now) (store_of store.old) key.now serial) }
    ensures err { OnErr result (store.new ≡ store.old) }
    ensures volumes { store.new.volumes ≡ store.old.volumes }
{
    let Some(at) = place_of(store.sets.as_slice(), key, serial) else {
        return Ok(());
    };
    let mut sets = mem::replace(&mut store.sets, Listed::empty(alloc)).into_vec();
    let done = sets[at].set.records.push(*text);
    store.sets = Listed::new(sets);
    done
}

/// Cuts a set to the tracks that its records fill.
pub(crate) fn trim_set(alloc: Global, store: &mut SoloStore, key: &Key, serial: Serial)
    ensures sets { store_of store.new ≡ cut_at (set_in store.old.sets key.now serial) (store_of store.old) key.now serial }
    ensures volumes { store.new.volumes ≡ store.old.volumes }
{
    let Some(at) = place_of(store.sets.as_slice(), key, serial) else {
        return;
    };
    let used = store.sets.as_slice()[at]
        .set
        .records
        .len()
        .div_ceil(RECORDS_A_TRACK) as u64;
    let mut sets = mem::replace(&mut store.sets, Listed::empty(alloc)).into_vec();
    sets[at].set.tracks = sets[at].set.tracks.min(used);
    store.sets = Listed::new(sets);
}

fn entry_position_of(entries: &[SoloEntry], name: &DsName) -> Option<usize>
    ensures { result ≡ position (is_of name.now) entries.now }
{
    entries.iter().position(|x| is_of(name, x))
}

/// Where the entry of a name stands, from 0.
fn entry_place_of(entries: &[SoloEntry], name: &DsName) -> Option<usize>
    ensures there { IfSome result (IsFirstOf entries.now name.now) }
    ensures missing { IfNone result (entry_in entries.now name.now ≡ None) }
{
    entry_position_of(entries, name)
}

/// Takes a number out of a group.
fn drop_number(entry: &mut CatEntry, number: u16)
    ensures { entry.new ≡ entry_without entry.old number }
{
    match entry {
        CatEntry::Group(group) => match group.remove(number) {
            Ok(()) => {}
            Err(_) => {}
        },
        CatEntry::Volume(_) => {}
    }
}

/// Takes a number out of the group of a base.
pub(crate) fn drop_number_of(alloc: Global, store: &mut SoloStore, base: &DsName, number: u16)
    ensures entry { LosesNumber (store_of store.old) base.now number (store_of store.new) }
    ensures volumes { store.new.volumes ≡ store.old.volumes }
{
    let Some(at) = entry_place_of(store.catalog.as_slice(), base) else {
        return;
    };
    let mut entries = mem::replace(&mut store.catalog, Listed::empty(alloc)).into_vec();
    drop_number(&mut entries[at].entry, number);
    store.catalog = Listed::new(entries);
}

/// Enters a number in a group. An `Err` changes nothing.
fn enter_in(entry: &mut CatEntry, number: u16, serial: Serial) -> Rolled
    requires range { (0 < number) × (number ≤ 9999) }
    requires group { TakesNumber (group_in (Some entry.old)) number serial }
    ensures answer { EntersNumber (group_in (Some entry.old)) number serial result }
    ensures range { RollsInRange result }
    ensures entry { entry.new ≡ entry_with entry.old number serial }
{
    match entry {
        CatEntry::Group(group) => match group.enter(number, serial) {
            Ok(rolled) => rolled,
            Err(_) => unreachable!(),
        },
        CatEntry::Volume(_) => unreachable!(),
    }
}

/// Enters a number in the group of a base.
pub(crate) fn enter_number_of(
    alloc: Global,
    store: &mut SoloStore,
    base: &DsName,
    number: u16,
    serial: Serial,
) -> Rolled
    requires range { (0 < number) × (number ≤ 9999) }
    requires group { TakesNumber (group_of (store_of store.old) base.now) number serial }
    ensures answer { EntersNumber (group_of (store_of store.old) base.now) number serial result }
    ensures range { RollsInRange result }
    ensures seen { store_of store.new ≡ with_number (store_of store.old) base.now number serial }
    ensures volumes { store.new.volumes ≡ store.old.volumes }
{
    let Some(at) = entry_place_of(store.catalog.as_slice(), base) else {
        unreachable!();
    };
    let mut entries = mem::replace(&mut store.catalog, Listed::empty(alloc)).into_vec();
    let rolled = enter_in(&mut entries[at].entry, number, serial);
    store.catalog = Listed::new(entries);
    rolled
}

/// Puts a set on a volume where it has none of its key. An `Err` changes nothing.
pub(crate) fn make_in(
    store: &mut SoloStore,
    key: &Key,
    serial: Serial,
    set: DataSet,
) -> Result<(), AllocError>
    requires { set_in store.old.sets key.now serial ≡ None }
    ensures ok { OnOk result (store_of store.new ≡ with_set (store_of store.old) key.now serial (Some set)) }
    ensures err { OnErr result (store.new ≡ store.old) }
    ensures volumes { store.new.volumes ≡ store.old.volumes }
{
    store.sets.push(SoloSet {
        serial,
        key: *key,
        set,
    })?;
    Ok(())
}
