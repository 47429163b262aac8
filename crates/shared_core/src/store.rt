//! The store of all jobs.
ghost use Rattle.std.specs.Prelude.{◌≡◌};
ghost use Rattle.std.specs.Option.{option_copied, option_map};
ghost use Rattle.store_core.specs.Actions.{facts_of};
ghost use Rattle.world_meaning.specs.Lenses.{seen, seen_set};
ghost use Rattle.shared_core.specs.Rooms.{GiveUp, Others, Take, grants_growth, grants_new, kept_place, others_of};
ghost use Rattle.shared_core.specs.Shown.{data_of, world_store_of};
ghost use Rattle.shared_core.specs.Giving.{both_given, none_taken, nothing_given};

use crate::key::world_key;
use crate::volumes::{append_to, empty_set, grow_set, make_set, place_of, scratch_set, trim_set};
use cat_core::catalog::Catalog;
use group_core::group::{Group, Rolled};
use jcl_meaning::state::Place;
use jcl_plan::plan::Record;
use jname_core::ds_name::DsName;
use jname_core::key::Key;
use jname_core::serial::Serial;
use mount_core::mounted::Mounted;
use mount_core::place::KeptPlace;
use plain::listed::Listed;
use std::alloc::{AllocError, Global};
use store_core::job_store::{JobStore, RoomFault, SetFacts};
use vtoc_core::entry::SetEntry;

/// The catalog, and the volumes with their sets.
#[derive(Drop)]
pub struct SharedStore {
    pub alloc: Global,
    pub catalog: Catalog,
    pub volumes: Listed<Mounted>,
}

/// Where tracks are kept for a set that is to be made.
fn kept_place(job: u16, place: &Place) -> KeptPlace
    ensures { result ≡ kept_place job place.now }
{
    KeptPlace {
        job,
        step: place.step,
        dd: place.dd,
    }
}

/// What is known of a set.
fn facts_of(entry: &SetEntry) -> SetFacts
    ensures { result ≡ facts_of (data_of entry.now) }
{
    SetFacts {
        tracks: u64::from(entry.tracks()),
        expires: entry.expires,
        records: entry.records.len(),
    }
}

impl SharedStore {
    /// The set that a job sees under a key on the volume of a serial.
    fn entry_of(&self, job: u16, key: &Key, serial: Serial) -> Option<&SetEntry>
        ensures { option_map data_of (option_copied result) ≡ seen_set job (world_store_of self.now) key.now serial }
    {
        let Some(key) = world_key(job, key) else {
            return None;
        };
        let Some(at) = place_of(self.volumes.as_slice(), serial) else {
            return None;
        };
        self.volumes.as_slice()[at].volume().find(&key)
    }
}

impl JobStore for SharedStore {
    ghost seen = { λ job s. seen job (world_store_of s) };

    ghost Rest = { Others };

    ghost rest = { λ job s. others_of job s };

    ghost gives_up = { λ old new. GiveUp old new };

    ghost takes = { λ job places old new. Take job places old new };

    ghost grants_new = { λ job s key place tracks. grants_new job s key place tracks };

    ghost grants_growth = { λ job s key serial tracks. grants_growth job s key serial tracks };

    ghost gives_nothing = { nothing_given };

    ghost gives_both = { both_given };

    ghost takes_none = { none_taken };

    fn set(&self, job: u16, key: &Key, serial: Serial) -> Option<SetFacts> {
        match self.entry_of(job, key, serial) {
            Some(entry) => Some(facts_of(entry)),
            None => None,
        }
    }

    fn record(&self, job: u16, key: &Key, serial: Serial, place: usize) -> Option<Record> {
        match self.entry_of(job, key, serial) {
            Some(entry) => entry.records.read_at(place),
            None => None,
        }
    }

    fn group(&self, _job: u16, base: &DsName) -> Option<&Group> {
        self.catalog.group(base)
    }

    fn volume(&self, _job: u16, name: &DsName) -> Option<Serial> {
        self.catalog.find(name)
    }

    fn make(
        &mut self,
        job: u16,
        key: &Key,
        place: &Place,
        tracks: u16,
        expires: Option<u32>,
    ) -> Result<(), RoomFault> {
        match world_key(job, key) {
            Some(key) => make_set(
                self.alloc,
                &mut self.volumes,
                place.serial,
                &kept_place(job, place),
                &key,
                tracks,
                expires,
            ),
            None => Err(RoomFault::NotGranted),
        }
    }

    fn grow(&mut self, job: u16, key: &Key, serial: Serial, tracks: u16) -> Result<(), RoomFault> {
        match world_key(job, key) {
            Some(key) => grow_set(self.alloc, &mut self.volumes, serial, &key, tracks),
            None => Ok(()),
        }
    }

    fn empty(&mut self, job: u16, key: &Key, serial: Serial) {
        if let Some(key) = world_key(job, key) {
            empty_set(self.alloc, &mut self.volumes, serial, &key);
        }
    }

    fn append(
        &mut self,
        job: u16,
        key: &Key,
        serial: Serial,
        text: &Record,
    ) -> Result<(), AllocError> {
        match world_key(job, key) {
            Some(key) => append_to(self.alloc, &mut self.volumes, serial, &key, text),
            None => Ok(()),
        }
    }

    fn trim(&mut self, job: u16, key: &Key, serial: Serial) {
        if let Some(key) = world_key(job, key) {
            trim_set(self.alloc, &mut self.volumes, serial, &key);
        }
    }

    fn scratch(&mut self, job: u16, key: &Key, serial: Serial) {
        if let Some(key) = world_key(job, key) {
            scratch_set(self.alloc, &mut self.volumes, serial, &key);
        }
    }

    fn enter(&mut self, _job: u16, name: &DsName, serial: Serial) -> Result<(), AllocError> {
        self.catalog.put(*name, serial)
    }

    fn uncatalog(&mut self, _job: u16, name: &DsName) {
        self.catalog.clear(name);
    }

    fn enter_number(&mut self, _job: u16, base: &DsName, number: u16, serial: Serial) -> Rolled {
        match self.catalog.enter_generation(base, number, serial) {
            Ok(rolled) => rolled,
            Err(_) => unreachable!(),
        }
    }
}
