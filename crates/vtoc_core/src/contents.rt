//! The table of contents as a map: the set of a key, and what is done to it.
ghost use Rattle.std.specs.Prelude.{◌≡◌, ◌<◌, ◌≤◌, ◌+◌, ◌++◌, ◌∷◌, [], None, OnOk, OnErr, IfErr, IfNone, false, is_some, if◌then◌else◌, length, MatchOption};
ghost use Rattle.std.specs.FinMap as map;
ghost use Rattle.std.specs.Option.{option_copied};
ghost use Rattle.std.specs.Ordering.{is_gt};
ghost use Rattle.std.specs.declared.ops.Bound.TheVariants.{Excluded, Included, Unbounded};
ghost use Rattle.vtoc_core.specs.Entries.{LacksRecords, changed, key_cmp, set_among, set_within, sets_of, with_extents, with_records};
ghost use Rattle.vtoc_core.specs.declared.entry.SetKey.{SetKey};
ghost use Rattle.vtoc_core.specs.Extents.{kept_front, past_front};
ghost use Rattle.vtoc_core.specs.Volumes.{AnswersWrite, LieBelow, AreJoined};

use crate::entry::{Extent, SetEntry, SetKey};
use crate::fault::VolumeFault;
use arrayvec::ArrayVec;
use set_core::records::{DataRecord, Records};
use std::collections::BTreeMap;
use std::collections::btree_map::Range;

pub(crate) type Sets = BTreeMap<SetKey, SetEntry>;

/// The set of this key.
pub(crate) fn find<'a>(sets: &'a Sets, key: &SetKey) -> Option<&'a SetEntry>
    ensures { option_copied result ≡ map.get (sets_of sets.now.entries) key.now }
{
    sets.get(key)
}

/// The sets from a key on, up to another.
pub(crate) fn between(sets: &Sets, below: SetKey, above: SetKey) -> Range<'_, SetKey, SetEntry>
    requires { is_gt (key_cmp below above) ≡ false }
    ensures { (key : SetKey) → set_among result key ≡ set_within (Included below) (Excluded above) (sets_of sets.now.entries) key }
{
    sets.range(below..above)
}

/// The sets from a key on.
pub(crate) fn from(sets: &Sets, below: SetKey) -> Range<'_, SetKey, SetEntry>
    ensures { (key : SetKey) → set_among result key ≡ set_within (Included below) Unbounded (sets_of sets.now.entries) key }
{
    sets.range(below..)
}

/// Whether there is a set of this key.
pub(crate) fn is_there(sets: &Sets, key: &SetKey) -> bool
    ensures { result ≡ is_some (map.get (sets_of sets.now.entries) key.now) }
{
    sets.contains_key(key)
}

/// Enters a set of a new key. A refusal changes nothing.
pub(crate) fn enter(sets: &mut Sets, key: SetKey, entry: SetEntry) -> Result<(), VolumeFault>
    ensures ok { OnOk result (sets_of sets.new.entries ≡ map.insert (sets_of sets.old.entries) key entry) }
    ensures absent { OnOk result (map.get (sets_of sets.old.entries) key ≡ None) }
    ensures err { OnErr result (sets_of sets.new.entries ≡ sets_of sets.old.entries) }
    ensures fault { IfErr result (λ fault. fault ≡ (if is_some (map.get (sets_of sets.old.entries) key) then VolumeFault.NameThere else VolumeFault.Memory)) }
{
    if is_there(sets, &key) {
        return Err(VolumeFault::NameThere);
    }
    match sets.insert(key, entry) {
        Ok(_) => Ok(()),
        Err(_) => Err(VolumeFault::Memory),
    }
}

/// Takes the set of a key out.
pub(crate) fn take_out(sets: &mut Sets, key: &SetKey) -> Option<SetEntry>
    ensures set { result ≡ map.get (sets_of sets.old.entries) key.now }
    ensures others { sets_of sets.new.entries ≡ map.remove (sets_of sets.old.entries) key.now }
    ensures gone { map.get (sets_of sets.new.entries) key.now ≡ None }
    ensures missing { IfNone result (sets_of sets.new.entries ≡ sets_of sets.old.entries) }
{
    sets.remove(key)
}

/// Gives the set of a key these extents in place of its own.
pub(crate) fn set_extents(sets: &mut Sets, key: &SetKey, extents: ArrayVec<Extent, 16>)
    ensures { sets_of sets.new.entries ≡ changed (sets_of sets.old.entries) key.now (with_extents (λ _. extents.items)) }
{
    match sets.get_mut(key) {
        Some(entry) => entry.extents = extents,
        None => {}
    }
}

/// Puts a record behind those of a set. A refusal changes nothing.
pub(crate) fn append(sets: &mut Sets, key: &SetKey, columns: DataRecord) -> Result<(), VolumeFault>
    ensures ok { OnOk result (sets_of sets.new.entries ≡ changed (sets_of sets.old.entries) key.now (with_records (λ all. all ++ columns ∷ []))) }
    ensures err { OnErr result (sets_of sets.new.entries ≡ sets_of sets.old.entries) }
    ensures answer { AnswersWrite result (map.get (sets_of sets.old.entries) key.now) }
{
    match sets.get_mut(key) {
        Some(entry) => match entry.records.append(columns) {
            Ok(()) => Ok(()),
            Err(_) => Err(VolumeFault::Memory),
        },
        None => Err(VolumeFault::NameMissing),
    }
}

/// Puts a record in place of all of a set's. A refusal changes nothing.
pub(crate) fn write_first(
    sets: &mut Sets,
    key: &SetKey,
    columns: DataRecord,
) -> Result<(), VolumeFault>
    ensures ok { OnOk result (sets_of sets.new.entries ≡ changed (sets_of sets.old.entries) key.now (with_records (λ _. columns ∷ []))) }
    ensures err { OnErr result (sets_of sets.new.entries ≡ sets_of sets.old.entries) }
    ensures memory { OnErr result (LacksRecords (map.get (sets_of sets.old.entries) key.now)) }
    ensures answer { AnswersWrite result (map.get (sets_of sets.old.entries) key.now) }
{
    match sets.get_mut(key) {
        Some(entry) => match entry.records.write_first(columns) {
            Ok(()) => Ok(()),
            Err(_) => Err(VolumeFault::Memory),
        },
        None => Err(VolumeFault::NameMissing),
    }
}

/// Takes all records of a set away, and tells whether there is such a set.
pub(crate) fn clear(sets: &mut Sets, key: &SetKey) -> bool
    ensures there { result ≡ is_some (map.get (sets_of sets.old.entries) key.now) }
    ensures cleared { sets_of sets.new.entries ≡ changed (sets_of sets.old.entries) key.now (with_records (λ _. [])) }
{
    match sets.get_mut(key) {
        Some(entry) => {
            entry.records.clear();
            true
        }
        None => false,
    }
}

/// Gives a set these records in place of its own, and tells whether there is such a set.
pub(crate) fn put_records(sets: &mut Sets, key: &SetKey, records: Records) -> bool
    ensures there { result ≡ is_some (map.get (sets_of sets.old.entries) key.now) }
    ensures put { sets_of sets.new.entries ≡ changed (sets_of sets.old.entries) key.now (with_records (λ _. records)) }
{
    match sets.get_mut(key) {
        Some(entry) => {
            entry.records = records;
            true
        }
        None => false,
    }
}

/// A set's extents, which are these.
pub(crate) fn extents_of(extents: &[Extent]) -> ArrayVec<Extent, 16>
    requires { length extents.now ≤ 16 }
    ensures { result.items ≡ extents.now }
{
    let mut all = ArrayVec::new();
    let _ = all.try_extend_from_slice(extents);
    all
}

/// A set's extents with more behind them, unless they would be over sixteen.
pub(crate) fn joined(extents: &[Extent], more: &[Extent]) -> Option<ArrayVec<Extent, 16>>
    requires { length extents.now ≤ 16 }
    ensures { MatchOption result (16 < length extents.now + length more.now) (λ all. AreJoined extents.now more.now all.items) }
{
    let mut all = extents_of(extents);
    match all.try_extend_from_slice(more) {
        Ok(()) => Some(all),
        Err(_) => None,
    }
}

/// Parts extents behind so many tracks: those that stay, and those past them.
pub(crate) fn cut(extents: &[Extent], tracks: usize) -> (ArrayVec<Extent, 16>, ArrayVec<Extent, 16>)
    requires few { length extents.now ≤ 16 }
    requires below { LieBelow 65536 extents.now }
    ensures kept { result.0.items ≡ kept_front tracks extents.now }
    ensures past { result.1.items ≡ past_front tracks extents.now }
{
    let mut kept = ArrayVec::new();
    let mut past = ArrayVec::new();
    let mut left = tracks;
    for extent in extents {
        let size = usize::from(extent.tracks);
        if left == 0 {
            past.push(*extent);
        } else if size <= left {
            kept.push(*extent);
            left -= size;
        } else {
            let front = left as u16;
            kept.push(Extent {
                start: extent.start,
                tracks: front,
            });
            past.push(Extent {
                start: extent.start + front,
                tracks: extent.tracks - front,
            });
            left = 0;
        }
    }
    (kept, past)
}
