//! A mounted volume.
ghost use Rattle.std.specs.Prelude.{◌≡◌, ◌≢◌, ℕ, ◌+◌, ◌==◌, if◌then◌else◌, length, ◌≤◌, ◌<◌, ◌↔◌, ◌++◌, ◌∷◌, [], IsErr, false, true, Some, None, Err, IfErr, IfNone, IfOk, IfSome, IsSome, OnErr, OnOk};
ghost use Rattle.std.specs.FinMap as map;
ghost use Rattle.jcl_plan.specs.declared.plan.TheConstants.{MOST_TRACKS};
ghost use Rattle.extent_core.specs.declared.extent.Extent.{Extent};
ghost use Rattle.vtoc_core.specs.Extents.{five_largest, free_extents, tracks_in};
ghost use Rattle.vtoc_core.specs.Volumes.{AnswersGrow, AnswersWrite, first_tracks, Scratches, Trims, with_records_at};
ghost use Rattle.mount_core.specs.Kept.{AreKept, IsKeptFor, KeepsNoneFor, extents_kept};
ghost use Rattle.mount_core.specs.declared.place.KeptPlace.{KeptPlace};
ghost use Rattle.mount_core.specs.Mounts.{WasMade, all_tracks, kept_given_back, holds, unusable_at, KeepsAt, holds_for, tracks_counted};

use crate::lists::{self, Lists, copy_of, drop_place, extents_at, is_taken};
use crate::place::KeptPlace;
use jname_core::serial::Serial;
use set_core::records::{DataRecord, Records};
use std::alloc::{AllocError, Global};
use std::collections::BTreeMap;
use std::marker::Model;
use vtoc_core::entry::{Extent, ExtentList, SetKey, tracks_in};
use vtoc_core::fault::VolumeFault;
use vtoc_core::volume::{Volume, volumes_are_sound};

/// A volume with its serial, and the tracks that are kept on it for sets still to be made.
#[derive(Drop)]
pub struct Mounted {
    serial: Serial,
    volume: Volume,
    kept: Lists,
}

impl Model for Mounted {
    ghost use Rattle.mount_core.specs.Kept.{AreKept, kept_of};
    ghost use Rattle.mount_core.specs.Mounts.{MountedState, coded_mounted};

    ghost Value = { MountedState };

    ghost coded = { coded_mounted };

    ghost view = { λ m. record { serial = m.serial; volume = m.volume; kept = kept_of m.kept.entries } };

    ghost invariant = { λ m. AreKept m.volume.tracks (kept_of m.kept.entries) };
}

impl Mounted {
    /// A volume of 1 to 4,000 tracks without a set. The tracks of these extents are never free.
    pub fn new(
        alloc: Global,
        serial: Serial,
        tracks: u16,
        unusable: &[Extent],
    ) -> Result<Mounted, AllocError>
        requires { tracks ≤ MOST_TRACKS }
        ensures { IfOk result (λ m. m ≡ record { serial = serial; volume = record { tracks = first_tracks tracks unusable.now; sets = map.empty }; kept = map.empty }) }
    {
        let volume = Volume::new(alloc, tracks, unusable)?;
        Ok(Mounted {
            serial,
            volume,
            kept: BTreeMap::new(alloc),
        })
    }

    pub fn serial(&self) -> Serial
        ensures { result ≡ self.now.serial }
    {
        self.serial
    }

    /// Its tracks and sets.
    pub fn volume(&self) -> &Volume
        ensures { result.now ≡ self.now.volume }
    {
        &self.volume
    }

    /// Whether so many tracks can be kept, or a set of them made of free tracks. The volume stays as it is.
    pub fn has_room(&mut self, tracks: u16) -> bool
        ensures answer { result ≡ holds None self.old.volume tracks }
        ensures same { self.new ≡ self.old }
    {
        match self.volume.reserve(tracks) {
            Ok(list) => {
                self.volume.give_back(list);
                true
            }
            Err(_) => false,
        }
    }

    /// Keeps so many tracks at a place where none are kept. A refusal changes nothing: `NameThere` where some are.
    pub fn keep(&mut self, place: KeptPlace, tracks: u16) -> Result<(), VolumeFault>
        ensures ok { OnOk result (KeepsAt self.old place tracks self.new) }
        ensures there { (result ≡ Err VolumeFault.NameThere) ↔ IsSome (map.get self.old.kept place) }
        ensures space { (result ≡ Err VolumeFault.NoSpace) ↔ ((map.get self.old.kept place ≡ None) × (five_largest (free_extents self.old.volume.tracks) < tracks)) }
        ensures others { IfErr result (λ fault. (fault ≢ VolumeFault.NameMissing) × (fault ≢ VolumeFault.TooManyExtents)) }
        ensures err { OnErr result (self.new ≡ self.old) }
    {
        if is_taken(&self.kept, &place) {
            return Err(VolumeFault::NameThere);
        }
        let list = self.volume.reserve(tracks)?;
        let taken = list.into_extents();
        match lists::put(&mut self.kept, place, copy_of(&taken)) {
            Ok(()) => Ok(()),
            Err(_) => {
                self.volume.give_back(ExtentList::of(taken));
                Err(VolumeFault::Memory)
            }
        }
    }

    /// Gives the tracks of a place back, if some are kept there.
    pub fn give_back(&mut self, place: &KeptPlace)
        ensures { self.new ≡ kept_given_back (map.get self.old.kept place.now) self.old place.now }
    {
        if let Some(extents) = extents_at(&self.kept, place) {
            self.volume.give_back(ExtentList::of(extents));
            drop_place(&mut self.kept, place);
        }
    }

    /// The first place of a job where tracks are kept.
    fn first_for(&self, job: u16) -> Option<KeptPlace>
        ensures some { IfSome result (IsKeptFor self.now.kept job) }
        ensures none { IfNone result (KeepsNoneFor self.now.kept job) }
    {
        lists::first_for(&self.kept, job)
    }

    /// Gives back all that is kept for a job. It takes no memory.
    pub fn give_back_all(&mut self, job: u16)
        ensures kept { (at : KeptPlace) → map.get self.new.kept at ≡ (if at.job == job then None else map.get self.old.kept at) }
        ensures sets { self.new.volume.sets ≡ self.old.volume.sets }
        ensures serial { self.new.serial ≡ self.old.serial }
        ensures tracks { all_tracks self.new.volume ≡ all_tracks self.old.volume }
        ensures unusable { (n : ℕ) → unusable_at self.new.volume.tracks n ≡ unusable_at self.old.volume.tracks n }
    {
        while let Some(place) = self.first_for(job) {
            self.kept_is_aside();
            self.give_back(&place);
        }
    }

    /// Makes a set without a record: of the tracks that are kept at a place, if so many are, else of free tracks where none are kept. A refusal changes
    /// nothing.
    pub fn make(
        &mut self,
        alloc: Global,
        place: &KeptPlace,
        key: SetKey,
        tracks: u16,
        expires: Option<u32>,
    ) -> Result<(), VolumeFault>
        ensures made { OnOk result (WasMade (map.get self.old.kept place.now) self.old place.now key tracks expires self.new) }
        ensures granted { OnOk result (holds_for self.old place.now tracks ≡ true) }
        ensures space { result ≡ Err VolumeFault.NoSpace → holds_for self.old place.now tracks ≡ false }
        ensures no_room { map.get self.old.volume.sets key ≡ None → holds_for self.old place.now tracks ≡ false → result ≡ Err VolumeFault.NoSpace }
        ensures there { (result ≡ Err VolumeFault.NameThere) → IsSome (map.get self.old.volume.sets key) }
        ensures others { IfErr result (λ fault. (fault ≢ VolumeFault.NameMissing) × (fault ≢ VolumeFault.TooManyExtents)) }
        ensures err { OnErr result (self.new ≡ self.old) }
    {
        let Some(extents) = extents_at(&self.kept, place) else {
            return self.volume.make_set(alloc, key, tracks, expires);
        };
        if tracks_in(extents.as_slice()) != u32::from(tracks) {
            return Err(VolumeFault::NoSpace);
        }
        match self
            .volume
            .make_from(alloc, ExtentList::of(extents), key, expires)
        {
            Ok(()) => {
                drop_place(&mut self.kept, place);
                Ok(())
            }
            Err((back, fault)) => {
                back.into_extents();
                Err(fault)
            }
        }
    }

    /// Scratches a set: its tracks are free again. A refusal changes nothing.
    pub fn scratch(&mut self, key: &SetKey) -> Result<(), VolumeFault>
        ensures ok { OnOk result (Scratches self.old.volume key.now self.new.volume) }
        ensures missing { IsErr result ↔ (map.get self.old.volume.sets key.now ≡ None) }
        ensures fault { IfErr result (λ fault. fault ≡ VolumeFault.NameMissing) }
        ensures err { OnErr result (self.new.volume ≡ self.old.volume) }
        ensures others { self.new ≡ record self.old { volume = self.new.volume } }
    {
        volumes_are_sound(&self.volume);
        self.volume.scratch(key)
    }

    /// Adds free tracks to a set. A refusal changes nothing.
    pub fn grow(&mut self, key: &SetKey, tracks: u16) -> Result<(), VolumeFault>
        ensures answer { AnswersGrow result self.old.volume key.now tracks self.new.volume }
        ensures others { self.new ≡ record self.old { volume = self.new.volume } }
    {
        self.volume.grow(key, tracks)
    }

    /// Cuts a set to this many tracks, from the end of its extents. A refusal changes nothing.
    pub fn trim(&mut self, key: &SetKey, tracks: usize) -> Result<(), VolumeFault>
        ensures ok { OnOk result (Trims self.old.volume key.now tracks self.new.volume) }
        ensures missing { IsErr result ↔ (map.get self.old.volume.sets key.now ≡ None) }
        ensures fault { IfErr result (λ fault. fault ≡ VolumeFault.NameMissing) }
        ensures err { OnErr result (self.new.volume ≡ self.old.volume) }
        ensures others { self.new ≡ record self.old { volume = self.new.volume } }
    {
        volumes_are_sound(&self.volume);
        self.volume.trim(key, tracks)
    }

    /// Puts a record behind those of a set. A refusal changes nothing.
    pub fn append(&mut self, key: &SetKey, columns: DataRecord) -> Result<(), VolumeFault>
        ensures ok { OnOk result (self.new.volume ≡ with_records_at self.old.volume key.now (λ all. all ++ columns ∷ [])) }
        ensures answer { AnswersWrite result (map.get self.old.volume.sets key.now) }
        ensures err { OnErr result (self.new.volume ≡ self.old.volume) }
        ensures others { self.new ≡ record self.old { volume = self.new.volume } }
    {
        self.volume.append(key, columns)
    }

    /// Gives a set these records in place of its own. It takes no memory. A refusal changes nothing.
    pub fn put_records(&mut self, key: &SetKey, records: Records) -> Result<(), VolumeFault>
        ensures ok { OnOk result (self.new.volume ≡ with_records_at self.old.volume key.now (λ _. records)) }
        ensures missing { IsErr result ↔ (map.get self.old.volume.sets key.now ≡ None) }
        ensures fault { IfErr result (λ fault. fault ≡ VolumeFault.NameMissing) }
        ensures err { OnErr result (self.new.volume ≡ self.old.volume) }
        ensures others { self.new ≡ record self.old { volume = self.new.volume } }
    {
        self.volume.put_records(key, records)
    }

    /// Takes all records of a set away. A refusal changes nothing.
    pub fn clear(&mut self, key: &SetKey) -> Result<(), VolumeFault>
        ensures ok { OnOk result (self.new.volume ≡ with_records_at self.old.volume key.now (λ _. [])) }
        ensures missing { IsErr result ↔ (map.get self.old.volume.sets key.now ≡ None) }
        ensures fault { IfErr result (λ fault. fault ≡ VolumeFault.NameMissing) }
        ensures err { OnErr result (self.new.volume ≡ self.old.volume) }
        ensures others { self.new ≡ record self.old { volume = self.new.volume } }
    {
        self.volume.clear(key)
    }

    /// What is kept is aside, no track of it twice, and nothing else is.
    pub fn kept_is_aside(&self)
        ensures { AreKept self.now.volume.tracks self.now.kept }
    {
        let _kept = &self.kept;
    }

    /// How many tracks are kept.
    pub fn kept_tracks(&self) -> usize
        ensures { result ≡ tracks_in (extents_kept self.now.kept) }
    {
        self.volume.track_counts().aside
    }

    /// The tracks of a volume add up to its size: those free, those kept, those of sets, and those that are never free.
    pub fn tracks_add_up(&self)
        ensures { tracks_counted self.now ≡ length self.now.volume.tracks }
    {
        volumes_are_sound(&self.volume);
    }
}
