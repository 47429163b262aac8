//! A volume.
ghost use Rattle.std.specs.Prelude.{◌≡◌, ◌≢◌, ◌≤◌, ◌<◌, ◌↔◌, ◌++◌, ◌∷◌, [], Some, None, Err, IsOk, IsErr, IsSome, IfOk, OnOk, OnErr, IfErr, false, count_by, length, ◌+◌};
ghost use Rattle.std.specs.FinMap as map;
ghost use Rattle.std.specs.Option.{option_copied};
ghost use Rattle.std.specs.Ordering.{is_gt};
ghost use Rattle.std.specs.declared.ops.Bound.TheVariants.{Excluded, Included, Unbounded};
ghost use Rattle.jcl_plan.specs.declared.plan.TheConstants.{MOST_TRACKS};
ghost use Rattle.vtoc_core.specs.Entries.{LacksRecords, changed, key_cmp, set_among, set_within, with_records};
ghost use Rattle.vtoc_core.specs.Extents.{five_largest, free_extents, is_free_track, planned, tracks_in};
ghost use Rattle.vtoc_core.specs.Volumes.{AnswersGrow, AnswersMake, AnswersWrite, AreOf, IsAside, IsSoundVolume, Moves, count_of, first_tracks, marked, MakesSet, Scratches, Trims, with_new_set};
ghost use Rattle.extent_core.specs.declared.extent.Extent.{Extent};
ghost use Rattle.vtoc_core.specs.declared.entry.SetEntry.{SetEntry};
ghost use Rattle.vtoc_core.specs.declared.entry.SetKey.{SetKey};
ghost use Rattle.vtoc_core.specs.declared.volume.Track.TheVariants.{Free, Aside, InSet, Unusable};

use crate::contents::{
    self, Sets, cut, enter, extents_of, is_there, joined, set_extents, take_out,
};
use crate::entry::{Extent, ExtentList, SetEntry, SetKey};
use crate::fault::VolumeFault;
use crate::table::TrackTable;
use set_core::records::{DataRecord, Records};
use std::alloc::{AllocError, Global};
use std::collections::BTreeMap;
use std::collections::btree_map::Range;
use std::marker::Model;

/// What a track is.
#[derive(Clone, Copy, PartialEq, Eq)]
pub enum Track {
    /// In no set, and set aside for none.
    Free,
    /// In an extent list.
    Aside,
    /// In one set's extents.
    InSet,
    /// Never free.
    Unusable,
}

/// How many tracks of a volume are of each kind.
#[derive(Clone, Copy, PartialEq, Eq)]
pub struct TrackCounts {
    pub free: usize,
    pub aside: usize,
    pub in_sets: usize,
    pub unusable: usize,
}

/// A volume: what each track is, and its sets by their keys.
#[derive(Drop)]
pub struct Volume {
    tracks: TrackTable,
    sets: Sets,
}

impl Model for Volume {
    ghost use Rattle.vtoc_core.specs.Entries.{sets_of};
    ghost use Rattle.vtoc_core.specs.Volumes.{VolumeState, IsSoundVolume, coded_volume};

    ghost Value = { VolumeState };

    ghost coded = { coded_volume };

    ghost view = { λ v. record { tracks = v.tracks; sets = sets_of v.sets.entries } };

    ghost invariant = { λ v. IsSoundVolume (record { tracks = v.tracks; sets = sets_of v.sets.entries }) };
}

impl Volume {
    /// A volume of 1 to 4,000 tracks without a set. The tracks of these extents are never free.
    pub fn new(alloc: Global, tracks: u16, unusable: &[Extent]) -> Result<Volume, AllocError>
        requires { tracks ≤ MOST_TRACKS }
        ensures { IfOk result (λ v. v ≡ record { tracks = first_tracks tracks unusable.now; sets = map.empty }) }
    {
        Ok(Volume {
            tracks: TrackTable::new(alloc, tracks, unusable)?,
            sets: BTreeMap::new(alloc),
        })
    }

    /// The set of this key.
    pub fn find(&self, key: &SetKey) -> Option<&SetEntry>
        ensures { option_copied result ≡ map.get self.now.sets key.now }
    {
        contents::find(&self.sets, key)
    }

    /// The sets from a key on, up to another, in the order of keys.
    pub fn sets_between(&self, below: SetKey, above: SetKey) -> Range<'_, SetKey, SetEntry>
        requires { is_gt (key_cmp below above) ≡ false }
        ensures { (key : SetKey) → set_among result key ≡ set_within (Included below) (Excluded above) self.now.sets key }
    {
        contents::between(&self.sets, below, above)
    }

    /// The sets from a key on, in the order of keys.
    pub fn sets_from(&self, below: SetKey) -> Range<'_, SetKey, SetEntry>
        ensures { (key : SetKey) → set_among result key ≡ set_within (Included below) Unbounded self.now.sets key }
    {
        contents::from(&self.sets, below)
    }

    /// How many tracks are free.
    pub fn free_tracks(&self) -> usize
        ensures { result ≡ count_by is_free_track self.now.tracks }
    {
        self.tracks.counts().free
    }

    /// How many tracks are of each kind.
    pub fn track_counts(&self) -> TrackCounts
        ensures free { result.free ≡ count_of Free self.now.tracks }
        ensures aside { result.aside ≡ count_of Aside self.now.tracks }
        ensures in_sets { result.in_sets ≡ count_of InSet self.now.tracks }
        ensures unusable { result.unusable ≡ count_of Unusable self.now.tracks }
        ensures sum { result.free + result.aside + result.in_sets + result.unusable ≡ length self.now.tracks }
    {
        self.tracks.counts()
    }

    /// Sets tracks aside: the front of the first free extent that holds them all, else the largest free extents, five at most. It is
    /// refused exactly where the five largest do not hold them.
    pub fn reserve(&mut self, tracks: u16) -> Result<ExtentList, VolumeFault>
        ensures ok { IfOk result (λ list. planned (free_extents self.old.tracks) tracks ≡ Some list) }
        ensures free { IfOk result (λ list. AreOf Free self.old.tracks list) }
        ensures aside { IfOk result (λ list. self.new ≡ record self.old { tracks = marked Aside list self.old.tracks }) }
        ensures list { IfOk result (λ list. IsAside self.new list × (tracks_in list ≡ tracks)) }
        ensures counts { OnOk result (Moves Free Aside tracks self.old.tracks self.new.tracks) }
        ensures exactly { IsOk result ↔ (tracks ≤ five_largest (free_extents self.old.tracks)) }
        ensures err { OnErr result (self.new ≡ self.old) }
        ensures fault { IfErr result (λ fault. fault ≡ VolumeFault.NoSpace) }
    {
        let Some(extents) = self.tracks.take(Track::Aside, tracks) else {
            return Err(VolumeFault::NoSpace);
        };
        Ok(ExtentList { extents })
    }

    /// Frees tracks that were set aside on this volume.
    pub fn give_back(&mut self, list: ExtentList)
        requires { IsAside self.old list }
        ensures state { self.new ≡ record self.old { tracks = marked Free list self.old.tracks } }
        ensures counts { Moves Aside Free (tracks_in list) self.old.tracks self.new.tracks }
    {
        let ExtentList { extents } = list;
        self.tracks.set_free(Track::Aside, extents.as_slice());
    }

    /// Makes a set of tracks that were set aside on this volume, without a record. A refusal gives the list back and changes nothing.
    pub fn make_from(
        &mut self,
        alloc: Global,
        list: ExtentList,
        key: SetKey,
        expires: Option<u32>,
    ) -> Result<(), (ExtentList, VolumeFault)>
        requires { IsAside self.old list }
        ensures answer { AnswersMake result self.old list key }
        ensures ok { OnOk result (self.new ≡ with_new_set self.old list key expires) }
        ensures counts { OnOk result (Moves Aside InSet (tracks_in list) self.old.tracks self.new.tracks) }
        ensures err { OnErr result (self.new ≡ self.old) }
    {
        let ExtentList { extents } = list;
        let entry = SetEntry {
            extents: extents_of(extents.as_slice()),
            expires,
            records: Records::new(alloc),
        };
        match enter(&mut self.sets, key, entry) {
            Ok(()) => {
                self.tracks.assign(extents.as_slice());
                Ok(())
            }
            Err(fault) => Err((ExtentList { extents }, fault)),
        }
    }

    /// Makes a set of free tracks, as `reserve` takes them, without a record. A refusal changes nothing.
    pub fn make_set(
        &mut self,
        alloc: Global,
        key: SetKey,
        tracks: u16,
        expires: Option<u32>,
    ) -> Result<(), VolumeFault>
        ensures ok { OnOk result (MakesSet self.old key tracks expires self.new) }
        ensures counts { OnOk result (Moves Free InSet tracks self.old.tracks self.new.tracks) }
        ensures there { (result ≡ Err VolumeFault.NameThere) ↔ IsSome (map.get self.old.sets key) }
        ensures space { (result ≡ Err VolumeFault.NoSpace) ↔ ((map.get self.old.sets key ≡ None) × (five_largest (free_extents self.old.tracks) < tracks)) }
        ensures others { IfErr result (λ fault. (fault ≢ VolumeFault.NameMissing) × (fault ≢ VolumeFault.TooManyExtents)) }
        ensures err { OnErr result (self.new ≡ self.old) }
    {
        if is_there(&self.sets, &key) {
            return Err(VolumeFault::NameThere);
        }
        let Some(taken) = self.tracks.take(Track::InSet, tracks) else {
            return Err(VolumeFault::NoSpace);
        };
        let entry = SetEntry {
            extents: extents_of(taken.as_slice()),
            expires,
            records: Records::new(alloc),
        };
        match enter(&mut self.sets, key, entry) {
            Ok(()) => Ok(()),
            Err(fault) => {
                self.tracks.set_free(Track::InSet, taken.as_slice());
                Err(fault)
            }
        }
    }

    /// Scratches a set: its tracks are free again. A refusal changes nothing.
    pub fn scratch(&mut self, key: &SetKey) -> Result<(), VolumeFault>
        ensures ok { OnOk result (Scratches self.old key.now self.new) }
        ensures gone { OnOk result (map.get self.new.sets key.now ≡ None) }
        ensures missing { IsErr result ↔ (map.get self.old.sets key.now ≡ None) }
        ensures fault { IfErr result (λ fault. fault ≡ VolumeFault.NameMissing) }
        ensures err { OnErr result (self.new ≡ self.old) }
    {
        match take_out(&mut self.sets, key) {
            Some(entry) => {
                self.tracks.set_free(Track::InSet, entry.extents.as_slice());
                Ok(())
            }
            None => Err(VolumeFault::NameMissing),
        }
    }

    /// Adds tracks to a set, as `reserve` takes them. A refusal changes nothing.
    pub fn grow(&mut self, key: &SetKey, tracks: u16) -> Result<(), VolumeFault>
        ensures answer { AnswersGrow result self.old key.now tracks self.new }
    {
        let Some(entry) = contents::find(&self.sets, key) else {
            return Err(VolumeFault::NameMissing);
        };
        let Some(more) = self.tracks.take(Track::InSet, tracks) else {
            return Err(VolumeFault::NoSpace);
        };
        let Some(extents) = joined(entry.extents.as_slice(), more.as_slice()) else {
            self.tracks.set_free(Track::InSet, more.as_slice());
            return Err(VolumeFault::TooManyExtents);
        };
        set_extents(&mut self.sets, key, extents);
        Ok(())
    }

    /// Cuts a set to this many tracks, from the end of its extents. A refusal changes nothing.
    pub fn trim(&mut self, key: &SetKey, tracks: usize) -> Result<(), VolumeFault>
        ensures ok { OnOk result (Trims self.old key.now tracks self.new) }
        ensures missing { IsErr result ↔ (map.get self.old.sets key.now ≡ None) }
        ensures fault { IfErr result (λ fault. fault ≡ VolumeFault.NameMissing) }
        ensures err { OnErr result (self.new ≡ self.old) }
    {
        let Some(entry) = contents::find(&self.sets, key) else {
            return Err(VolumeFault::NameMissing);
        };
        let (kept, past) = cut(entry.extents.as_slice(), tracks);
        set_extents(&mut self.sets, key, kept);
        self.tracks.set_free(Track::InSet, past.as_slice());
        Ok(())
    }

    /// Puts a record behind those of a set. A refusal changes nothing.
    pub fn append(&mut self, key: &SetKey, columns: DataRecord) -> Result<(), VolumeFault>
        ensures ok { OnOk result (self.new ≡ record self.old { sets = changed self.old.sets key.now (with_records (λ all. all ++ columns ∷ [])) }) }
        ensures answer { AnswersWrite result (map.get self.old.sets key.now) }
        ensures err { OnErr result (self.new ≡ self.old) }
    {
        contents::append(&mut self.sets, key, columns)
    }

    /// Puts a record in place of all of a set's. A refusal changes nothing, and memory is missing only where the set had no record.
    pub fn write_first(&mut self, key: &SetKey, columns: DataRecord) -> Result<(), VolumeFault>
        ensures ok { OnOk result (self.new ≡ record self.old { sets = changed self.old.sets key.now (with_records (λ _. columns ∷ [])) }) }
        ensures answer { AnswersWrite result (map.get self.old.sets key.now) }
        ensures memory { OnErr result (LacksRecords (map.get self.old.sets key.now)) }
        ensures err { OnErr result (self.new ≡ self.old) }
    {
        contents::write_first(&mut self.sets, key, columns)
    }

    /// Gives a set these records in place of its own. It takes no memory. A refusal changes nothing.
    pub fn put_records(&mut self, key: &SetKey, records: Records) -> Result<(), VolumeFault>
        ensures ok { OnOk result (self.new ≡ record self.old { sets = changed self.old.sets key.now (with_records (λ _. records)) }) }
        ensures missing { IsErr result ↔ (map.get self.old.sets key.now ≡ None) }
        ensures fault { IfErr result (λ fault. fault ≡ VolumeFault.NameMissing) }
        ensures err { OnErr result (self.new ≡ self.old) }
    {
        if contents::put_records(&mut self.sets, key, records) {
            Ok(())
        } else {
            Err(VolumeFault::NameMissing)
        }
    }

    /// Takes all records of a set away. A refusal changes nothing.
    pub fn clear(&mut self, key: &SetKey) -> Result<(), VolumeFault>
        ensures ok { OnOk result (self.new ≡ record self.old { sets = changed self.old.sets key.now (with_records (λ _. [])) }) }
        ensures missing { IsErr result ↔ (map.get self.old.sets key.now ≡ None) }
        ensures fault { IfErr result (λ fault. fault ≡ VolumeFault.NameMissing) }
        ensures err { OnErr result (self.new ≡ self.old) }
    {
        if contents::clear(&mut self.sets, key) {
            Ok(())
        } else {
            Err(VolumeFault::NameMissing)
        }
    }
}

/// Each volume is sound: the tracks of sets are marked so, none of them is in two extents, and all tracks marked so are of a set.
pub fn volumes_are_sound(volume: &Volume)
    ensures { IsSoundVolume volume.now }
{
    let _ = &volume.tracks;
}
