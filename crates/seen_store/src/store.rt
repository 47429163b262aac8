//! The store that an analysed job sees.
ghost use Rattle.std.specs.Prelude.{◌≡◌, ◌<◌, ◌≤◌, All, IfOk, IfSome, OnSome, Some, length, true};
ghost use Rattle.std.specs.Option.{option_copied};
ghost use Rattle.group_core.specs.Entries.{volume_in};
ghost use Rattle.jname_core.specs.Generations.{base_of};
ghost use Rattle.jcl_meaning.specs.Lists.{member_copied};
ghost use Rattle.jcl_meaning.specs.Stores.{entry_in, group_of, member_of, set_in, store_of, volume_of};
ghost use Rattle.store_core.specs.Actions.{facts_of};
ghost use Rattle.seen_store.specs.Listing.{entries_of, sets_of};

use crate::entries::{
    Entries, copy_of_entries, drop_entry, drop_number, enter_number, entries_by_name, entry_at,
    put_entry,
};
use crate::place::SetPlace;
use crate::sets::{
    Sets, append_to, copy_of_sets, drop_set, empty_set, grow_set, put_set, set_at, sets_by_place,
    trim_set,
};
use group_core::entry::CatEntry;
use group_core::group::{Group, Rolled};
use jcl_meaning::state::Place;
use jcl_meaning::store::{DataSet, SoloStore};
use jcl_plan::plan::Record;
use jname_core::ds_name::DsName;
use jname_core::key::Key;
use jname_core::serial::Serial;
use plain::listed::Listed;
use std::alloc::{AllocError, Global};
use std::collections::btree_map::Iter;
use std::marker::Model;
use store_core::job_store::{JobStore, RoomFault, SetFacts};

/// Sets by their places and entries by their names. A contract sees the lists of them, in order, and no volume. Whatever growth is asked for is granted.
#[derive(Drop)]
pub struct SeenStore {
    alloc: Global,
    sets: Sets,
    catalog: Entries,
}

impl Model for SeenStore {
    ghost use Rattle.std.specs.Prelude.{[]};
    ghost use Rattle.jcl_meaning.specs.declared.store.SoloStore.{SoloStore};
    ghost use Rattle.seen_store.specs.Listing.{entries_of, sets_of};

    ghost Value = { SoloStore };

    ghost view = { λ s. record { volumes = []; sets = sets_of s.sets.entries; catalog = entries_of s.catalog.entries } };
}

impl SeenStore {
    /// The sets and entries of a store of lists: of two in one place the first.
    pub fn of_solo(alloc: Global, store: &SoloStore) -> Result<SeenStore, AllocError>
        ensures { IfOk result (λ seen. store_of seen ≡ store_of store.now) }
    {
        Ok(SeenStore {
            alloc,
            sets: sets_by_place(alloc, store.sets.as_slice())?,
            catalog: entries_by_name(alloc, store.catalog.as_slice())?,
        })
    }

    pub fn copy_of(&self) -> Result<SeenStore, AllocError>
        ensures { IfOk result (λ copy. copy ≡ self.now) }
    {
        Ok(SeenStore {
            alloc: self.alloc,
            sets: copy_of_sets(&self.sets)?,
            catalog: copy_of_entries(&self.catalog)?,
        })
    }

    /// The sets in the order of their places.
    pub fn sets(&self) -> Iter<'_, SetPlace, DataSet>
        ensures listed { sets_of result ≡ self.now.sets }
        ensures found { All (λ x. set_in self.now.sets x.key x.serial ≡ Some x.set) self.now.sets }
    {
        self.sets.iter()
    }

    /// The entries in the order of their names.
    pub fn entries(&self) -> Iter<'_, DsName, CatEntry>
        ensures listed { entries_of result ≡ self.now.catalog }
        ensures found { All (λ x. entry_in self.now.catalog x.name ≡ Some x.entry) self.now.catalog }
    {
        self.catalog.iter()
    }

    /// The set of a key on a volume.
    pub fn set_at(&self, key: &Key, serial: Serial) -> Option<&DataSet>
        ensures { option_copied result ≡ set_in self.now.sets key.now serial }
    {
        set_at(&self.sets, key, serial)
    }

    /// What the catalog has for a name.
    pub fn entry_of(&self, name: &DsName) -> Option<&CatEntry>
        ensures { option_copied result ≡ entry_in self.now.catalog name.now }
    {
        entry_at(&self.catalog, name)
    }

    /// The group of a base.
    fn group_of(&self, base: &DsName) -> Option<&Group>
        ensures { option_copied result ≡ group_of (store_of self.now) base.now }
    {
        match self.entry_of(base) {
            Some(CatEntry::Group(group)) => Some(group),
            Some(CatEntry::Volume(_)) => None,
            None => None,
        }
    }

    /// The volume of a name's own entry.
    fn own_volume(&self, name: &DsName) -> Option<Serial>
        ensures { result ≡ volume_in (entry_in self.now.catalog name.now) }
    {
        match self.entry_of(name) {
            Some(CatEntry::Volume(serial)) => Some(*serial),
            Some(CatEntry::Group(_)) => None,
            None => None,
        }
    }

    /// The number of a name in the group of its base, and that group.
    fn member_of(&self, name: &DsName) -> Option<(u16, &Group)>
        ensures member { member_copied result ≡ member_of (store_of self.now) name.now }
        ensures range { IfSome result (λ m. (0 < m.0) × (m.0 ≤ 9999)) }
        ensures short { OnSome result (length (base_of name.now) ≤ 35) }
    {
        let number = name.generation_of()?;
        if number == 0 {
            return None;
        }
        let group = self.group_of(&name.base_of())?;
        Some((number, group))
    }

    /// The volume that the catalog has for a name.
    fn volume_of(&self, name: &DsName) -> Option<Serial>
        ensures { result ≡ volume_of (store_of self.now) name.now }
    {
        match self.member_of(name) {
            Some((number, group)) => group.find(number),
            None => self.own_volume(name),
        }
    }
}

/// What is known of a set.
fn facts_of(set: &DataSet) -> SetFacts
    ensures { result ≡ facts_of set.now }
{
    SetFacts {
        tracks: set.tracks,
        expires: set.expires,
        records: set.records.len(),
    }
}

impl JobStore for SeenStore {
    ghost seen = { λ _ s. store_of s };

    ghost Rest = { Unit {0} };

    ghost rest = { λ _ _. tt };

    ghost gives_up = { λ _ _. Unit {0} };

    ghost takes = { λ _ _ _ _. Unit {0} };

    ghost grants_new = { λ _ _ _ _ _. true };

    ghost grants_growth = { λ _ _ _ _ _. true };

    ghost gives_nothing = { λ _. tt };

    ghost gives_both = { λ _ _ _ _ _. tt };

    ghost takes_none = { λ _ _ _ _. tt };

    fn set(&self, _job: u16, key: &Key, serial: Serial) -> Option<SetFacts> {
        match self.set_at(key, serial) {
            Some(set) => Some(facts_of(set)),
            None => None,
        }
    }

    fn record(&self, _job: u16, key: &Key, serial: Serial, place: usize) -> Option<Record> {
        match self.set_at(key, serial) {
            Some(set) => set.records.as_slice().get(place).copied(),
            None => None,
        }
    }

    fn group(&self, _job: u16, base: &DsName) -> Option<&Group> {
        self.group_of(base)
    }

    fn volume(&self, _job: u16, name: &DsName) -> Option<Serial> {
        self.volume_of(name)
    }

    fn make(
        &mut self,
        _job: u16,
        key: &Key,
        place: &Place,
        tracks: u16,
        expires: Option<u32>,
    ) -> Result<(), RoomFault> {
        let set = DataSet {
            tracks: u64::from(tracks),
            expires,
            records: Listed::empty(self.alloc),
        };
        match put_set(&mut self.sets, key, place.serial, set) {
            Ok(()) => Ok(()),
            Err(_) => Err(RoomFault::Memory),
        }
    }

    fn grow(&mut self, _job: u16, key: &Key, serial: Serial, tracks: u16) -> Result<(), RoomFault> {
        match grow_set(&mut self.sets, key, serial, tracks) {
            Ok(()) => Ok(()),
            Err(_) => Err(RoomFault::Memory),
        }
    }

    fn empty(&mut self, _job: u16, key: &Key, serial: Serial) {
        empty_set(&mut self.sets, key, serial);
    }

    fn append(
        &mut self,
        _job: u16,
        key: &Key,
        serial: Serial,
        text: &Record,
    ) -> Result<(), AllocError> {
        append_to(&mut self.sets, key, serial, text)
    }

    fn trim(&mut self, _job: u16, key: &Key, serial: Serial) {
        trim_set(&mut self.sets, key, serial);
    }

    fn scratch(&mut self, _job: u16, key: &Key, serial: Serial) {
        drop_set(&mut self.sets, key, serial);
    }

    fn enter(&mut self, _job: u16, name: &DsName, serial: Serial) -> Result<(), AllocError> {
        put_entry(&mut self.catalog, name, CatEntry::Volume(serial))
    }

    fn uncatalog(&mut self, _job: u16, name: &DsName) {
        match self.member_of(name) {
            Some((number, _)) => drop_number(&mut self.catalog, &name.base_of(), number),
            None => drop_entry(&mut self.catalog, name),
        }
    }

    fn enter_number(&mut self, _job: u16, base: &DsName, number: u16, serial: Serial) -> Rolled {
        enter_number(&mut self.catalog, base, number, serial)
    }
}
