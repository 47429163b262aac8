//! The sets that a job sees on a volume, copied without their records.
ghost use Rattle.std.specs.Prelude.{◌≡◌, ◌++◌, ℕ, List, IfOk, IfSome, OnOk, Some, None, true};
ghost use Rattle.std.specs.FinMap as map;
ghost use Rattle.std.specs.Option.{option_copied};
ghost use Rattle.jcl_meaning.specs.Names.{held_under};
ghost use Rattle.jcl_meaning.specs.Parts.{sees_key};
ghost use Rattle.jname_core.specs.Generations.{above_generations, below_generations};
ghost use Rattle.cat_core.specs.Catalogs.{is_generation_of};
ghost use Rattle.vtoc_core.specs.Entries.{set_among};
ghost use Rattle.vtoc_core.specs.declared.entry.SetKey.{SetKey};
ghost use Rattle.vtoc_core.specs.declared.entry.SetKey.TheVariants.{Named};
ghost use Rattle.part_copy.specs.Copies.{AddsSets, IsNamed, bare, bare_on, copies_of_named, copies_of_sets, copy_of_set, is_under, is_under_some};

use crate::seen::{is_under, job_key};
use jcl_meaning::names::HeldName;
use jcl_meaning::store::{DataSet, SoloSet};
use jname_core::ds_name::{DsName, faults_are_exact};
use jname_core::key::Key;
use jname_core::serial::Serial;
use mount_core::mounted::Mounted;
use plain::listed::Listed;
use std::alloc::{AllocError, Global};
use std::collections::btree_map::Range;
use vtoc_core::entry::{SetEntry, SetKey};
use vtoc_core::volume::Volume;

/// A set without its tracks and records.
fn bare(alloc: Global, entry: &SetEntry) -> DataSet
    ensures { result ≡ bare entry.now }
{
    DataSet {
        tracks: 0,
        expires: entry.expires,
        records: Listed::empty(alloc),
    }
}

/// The copy of a set on the volume of a serial, where the job sees it under this name, or under none.
fn copy_of_set(
    alloc: Global,
    job: u16,
    held: Option<&DsName>,
    serial: Serial,
    key: &SetKey,
    entry: &SetEntry,
) -> Option<SoloSet>
    ensures { result ≡ copy_of_set job (option_copied held.entry) serial (key.now, entry.now) }
{
    let key = job_key(job, key)?;
    if !is_under(held, &key) {
        return None;
    }
    Some(SoloSet {
        serial,
        key,
        set: bare(alloc, entry),
    })
}

/// Adds the copies of those of these sets that the job sees under this name, or under none.
fn copy_sets(
    alloc: Global,
    sets: &mut Listed<SoloSet>,
    job: u16,
    held: Option<&DsName>,
    serial: Serial,
    all: Range<'_, SetKey, SetEntry>,
) -> Result<(), AllocError>
    ensures { OnOk result (sets.new ≡ sets.old ++ copies_of_sets job (option_copied held.entry) serial all.entry) }
{
    for (key, entry) in all {
        if let Some(copy) = copy_of_set(alloc, job, held, serial, key, entry) {
            sets.push(copy)?;
        }
    }
    Ok(())
}

/// Adds the copy of a named set, where there is one.
fn copy_named(
    alloc: Global,
    sets: &mut Listed<SoloSet>,
    mounted: &Mounted,
    name: &DsName,
) -> Result<(), AllocError>
    ensures { OnOk result (sets.new ≡ sets.old ++ copies_of_named mounted.now.serial name.now (map.get mounted.now.volume.sets (Named name.now))) }
{
    if let Some(entry) = mounted.volume().find(&SetKey::Named(*name)) {
        sets.push(SoloSet {
            serial: mounted.serial(),
            key: Key::Named(*name),
            set: bare(alloc, entry),
        })?;
    }
    Ok(())
}

/// The sets between two names that stand around all generations of a base.
fn sets_between<'a>(
    volume: &'a Volume,
    base: &DsName,
    below: DsName,
    above: DsName,
) -> Range<'a, SetKey, SetEntry>
    requires below { below ≡ below_generations base.now }
    requires above { above ≡ above_generations base.now }
    ensures there { (key : SetKey) → IfSome (set_among result key) (λ e. map.get volume.now.sets key ≡ Some e) }
    ensures all { (name : List ℕ) → is_generation_of base.now name ≡ true → set_among result (Named name) ≡ map.get volume.now.sets (Named name) }
{
    volume.sets_between(SetKey::Named(below), SetKey::Named(above))
}

/// Sets of a volume among which all generations of a base are.
fn generation_sets<'a>(volume: &'a Volume, base: &DsName) -> Range<'a, SetKey, SetEntry>
    ensures there { (key : SetKey) → IfSome (set_among result key) (λ e. map.get volume.now.sets key ≡ Some e) }
    ensures all { (name : List ℕ) → is_generation_of base.now name ≡ true → set_among result (Named name) ≡ map.get volume.now.sets (Named name) }
{
    match base.generation_bounds() {
        Some((below, above)) => sets_between(volume, base, below, above),
        None => volume.sets_from(SetKey::Named(*base)),
    }
}

/// Adds the copies of the sets under a name: the set of that name, and its generations.
fn copy_held(
    alloc: Global,
    sets: &mut Listed<SoloSet>,
    job: u16,
    mounted: &Mounted,
    name: &DsName,
) -> Result<(), AllocError>
    ensures { OnOk result (AddsSets (bare_on job mounted.now) (λ spot. is_under (Some name.now) (held_under spot.0)) sets.old sets.new) }
{
    copy_named(alloc, sets, mounted, name)?;
    let all = generation_sets(mounted.volume(), name);
    copy_sets(alloc, sets, job, Some(name), mounted.serial(), all)
}

/// Adds the copies of the sets under these names.
fn copy_all_held(
    alloc: Global,
    sets: &mut Listed<SoloSet>,
    job: u16,
    names: &[HeldName],
    mounted: &Mounted,
) -> Result<(), AllocError>
    ensures { OnOk result (AddsSets (bare_on job mounted.now) (λ spot. is_under_some names.now (held_under spot.0)) sets.old sets.new) }
{
    for held in names {
        copy_held(alloc, sets, job, mounted, &held.name)?;
    }
    Ok(())
}

/// A key behind which all sets without a name are, and hardly a named one.
fn key_behind_names() -> SetKey
    ensures { IsNamed result }
{
    faults_are_exact();
    SetKey::Named(DsName::of(b"ZZZZZZZZ"))
}

/// Adds the copies of the job's own sets.
fn copy_own(
    alloc: Global,
    sets: &mut Listed<SoloSet>,
    job: u16,
    mounted: &Mounted,
) -> Result<(), AllocError>
    ensures { OnOk result (AddsSets (bare_on job mounted.now) (λ spot. is_under None (held_under spot.0)) sets.old sets.new) }
{
    let all = mounted.volume().sets_from(key_behind_names());
    copy_sets(alloc, sets, job, None, mounted.serial(), all)
}

/// Adds the copies of the sets on a volume that a job with these names sees.
pub(crate) fn copy_volume(
    alloc: Global,
    sets: &mut Listed<SoloSet>,
    job: u16,
    names: &[HeldName],
    mounted: &Mounted,
) -> Result<(), AllocError>
    ensures { OnOk result (AddsSets (bare_on job mounted.now) (λ spot. sees_key names.now spot.0) sets.old sets.new) }
{
    copy_own(alloc, sets, job, mounted)?;
    copy_all_held(alloc, sets, job, names, mounted)
}
