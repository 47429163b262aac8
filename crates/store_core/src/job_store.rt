//! The store as a job sees it, and what the job's actions ask of it.
ghost use Rattle.std.specs.Prelude.{◌≡◌, ◌<◌, ◌≤◌, ◌↔◌, ℕ, Bool, List, [], ◌∷◌, Err, Some, None, OnErr, OnOk, true, false, slice_get};
ghost use Rattle.std.specs.Option.{option_copied, option_map};
ghost use Rattle.group_core.specs.Groups.{RollsInRange};
ghost use Rattle.group_core.specs.declared.entry.CatEntry.TheVariants as entry;
ghost use Rattle.jname_core.specs.declared.key.Key.{Key};
ghost use Rattle.jcl_meaning.specs.declared.state.Place.{Place};
ghost use Rattle.jcl_meaning.specs.Programs.{appended, emptied, grown_by, records_of};
ghost use Rattle.jcl_meaning.specs.Stores.{Store, cut_at, group_of, member_of, uncatalogued_by, volume_of, with_entry, with_set};
ghost use Rattle.store_core.specs.Actions.{changed_at, facts_of, new_set_of};
ghost use Rattle.store_core.specs.EnteredNumbers.{EntersNumber, TakesNumber, with_number};

use group_core::group::{Group, Rolled};
use jcl_meaning::state::Place;
use jcl_plan::plan::Record;
use jname_core::ds_name::DsName;
use jname_core::key::Key;
use jname_core::serial::Serial;
use std::alloc::AllocError;

/// What is known of a set: its tracks, the day (from 1900/001 as 0) before which it is not to be deleted, and how many records it has.
#[derive(Clone, Copy, PartialEq, Eq)]
pub struct SetFacts {
    pub tracks: u64,
    pub expires: Option<u32>,
    pub records: usize,
}

/// Why a set did not get tracks. Nothing has changed.
#[derive(Clone, Copy, PartialEq, Eq)]
pub enum RoomFault {
    /// They are not granted.
    NotGranted,
    Memory,
}

/// A store in which each job, by its number, sees the sets of all and its own temporary ones. A call changes what the job sees as it says, and
/// nothing that other jobs alone see; an `Err` changes nothing.
pub trait JobStore {
    /// The store as the job of a number sees it.
    ghost seen: { ℕ → Self → Store };

    /// All else that is known of the store.
    ghost Rest: { Type 0 };

    /// The same for a job: the sets that others alone see, the extents of all sets, and what is kept for jobs.
    ghost rest: { ℕ → Self → Rest };

    /// What becomes of it where sets give tracks up and none takes any.
    ghost gives_up: { Rest → Rest → Type 0 };

    /// What becomes of it where a job's sets take tracks: those that it makes at these places, or one that grows.
    ghost takes: { ℕ → List Place → Rest → Rest → Type 0 };

    /// Whether the tracks of a job's new set of a key are granted, at a place.
    ghost grants_new: { ℕ → Self → Key → Place → ℕ → Bool };

    /// Whether further tracks are granted to a job's set.
    ghost grants_growth: { ℕ → Self → Key → List ℕ → ℕ → Bool };

    /// To give up nothing is to give up.
    ghost gives_nothing: { (rest : Rest) → gives_up rest rest };

    /// To give up twice is to give up.
    ghost gives_both: { (first second third : Rest) → gives_up first second → gives_up second third → gives_up first third };

    /// Where tracks are given up none are taken.
    ghost takes_none: { (job : ℕ) (old new : Rest) → gives_up old new → takes job [] old new };

    /// What is known of the set of a key on a volume, if it is there.
    fn set(&self, job: u16, key: &Key, serial: Serial) -> Option<SetFacts>
        ensures { result ≡ option_map facts_of ((seen job self.now).set key.now serial) };

    /// A record of a set, by its place from 0.
    fn record(&self, job: u16, key: &Key, serial: Serial, place: usize) -> Option<Record>
        ensures { result ≡ slice_get (records_of ((seen job self.now).set key.now serial)) place };

    /// The group of a base.
    fn group(&self, job: u16, base: &DsName) -> Option<&Group>
        ensures { option_copied result ≡ group_of (seen job self.now) base.now };

    /// The volume that the catalog has for a name.
    fn volume(&self, job: u16, name: &DsName) -> Option<Serial>
        ensures { result ≡ volume_of (seen job self.now) name.now };

    /// Makes a set without records where there is none, for a DD of a step, on a volume.
    fn make(
        &mut self,
        job: u16,
        key: &Key,
        place: &Place,
        tracks: u16,
        expires: Option<u32>,
    ) -> Result<(), RoomFault>
        requires { (seen job self.old).set key.now place.now.serial ≡ None }
        ensures made { OnOk result (seen job self.new ≡ with_set (seen job self.old) key.now place.now.serial (Some (new_set_of tracks expires))) }
        ensures taken { OnOk result (takes job (place.now ∷ []) (rest job self.old) (rest job self.new)) }
        ensures granted { OnOk result (grants_new job self.old key.now place.now tracks ≡ true) }
        ensures refused { result ≡ Err RoomFault.NotGranted ↔ grants_new job self.old key.now place.now tracks ≡ false }
        ensures err { OnErr result (self.new ≡ self.old) };

    /// Adds tracks to a set.
    fn grow(&mut self, job: u16, key: &Key, serial: Serial, tracks: u16) -> Result<(), RoomFault>
        ensures grown { OnOk result (seen job self.new ≡ changed_at (grown_by tracks) (seen job self.old) key.now serial) }
        ensures granted { OnOk result (grants_growth job self.old key.now serial tracks ≡ true) }
        ensures refused { result ≡ Err RoomFault.NotGranted ↔ grants_growth job self.old key.now serial tracks ≡ false }
        ensures err { OnErr result (self.new ≡ self.old) }
        ensures rest { OnOk result (takes job [] (rest job self.old) (rest job self.new)) };

    /// Takes the records of a set away.
    fn empty(&mut self, job: u16, key: &Key, serial: Serial)
        ensures seen { seen job self.new ≡ changed_at (emptied true) (seen job self.old) key.now serial }
        ensures rest { rest job self.new ≡ rest job self.old };

    /// Puts a record behind those of a set. The error is want of memory.
    fn append(
        &mut self,
        job: u16,
        key: &Key,
        serial: Serial,
        text: &Record,
    ) -> Result<(), AllocError>
        ensures ok { OnOk result (seen job self.new ≡ changed_at (appended text.now) (seen job self.old) key.now serial) }
        ensures err { OnErr result (self.new ≡ self.old) }
        ensures rest { rest job self.new ≡ rest job self.old };

    /// Cuts a set to the tracks that its records fill.
    fn trim(&mut self, job: u16, key: &Key, serial: Serial)
        ensures seen { seen job self.new ≡ cut_at ((seen job self.old).set key.now serial) (seen job self.old) key.now serial }
        ensures rest { gives_up (rest job self.old) (rest job self.new) };

    /// Takes a set off its volume.
    fn scratch(&mut self, job: u16, key: &Key, serial: Serial)
        ensures seen { seen job self.new ≡ with_set (seen job self.old) key.now serial None }
        ensures rest { gives_up (rest job self.old) (rest job self.new) };

    /// Enters a name for a volume, in place of what is there. The error is want of memory.
    fn enter(&mut self, job: u16, name: &DsName, serial: Serial) -> Result<(), AllocError>
        ensures ok { OnOk result (seen job self.new ≡ with_entry (seen job self.old) name.now (Some (entry.Volume serial))) }
        ensures err { OnErr result (self.new ≡ self.old) }
        ensures rest { rest job self.new ≡ rest job self.old };

    /// Takes a name out of the catalog: of a group's generation the number.
    fn uncatalog(&mut self, job: u16, name: &DsName)
        ensures seen { seen job self.new ≡ uncatalogued_by (member_of (seen job self.old) name.now) (seen job self.old) name.now }
        ensures rest { rest job self.new ≡ rest job self.old };

    /// Enters a number that a group takes, in a full group in place of the lowest, whose set is left to the caller.
    fn enter_number(&mut self, job: u16, base: &DsName, number: u16, serial: Serial) -> Rolled
        requires range { (0 < number) × (number ≤ 9999) }
        requires group { TakesNumber (group_of (seen job self.old) base.now) number serial }
        ensures answer { EntersNumber (group_of (seen job self.old) base.now) number serial result }
        ensures range { RollsInRange result }
        ensures seen { seen job self.new ≡ with_number (seen job self.old) base.now number serial }
        ensures rest { rest job self.new ≡ rest job self.old };
}
