//! What a store has: its sets, by volume and key, and its catalog.
ghost use Rattle.std.specs.Prelude.{◌≡◌, ◌<◌, ◌≤◌, ◌++◌, ◌∷◌, [], Some, None, IfSome, OnErr, OnOk, OnSome, length, vec_capacity, vec_len};
ghost use Rattle.std.specs.Option.{option_copied};
ghost use Rattle.group_core.specs.Entries.{volume_in};
ghost use Rattle.jname_core.specs.Generations.{base_of};
ghost use Rattle.jcl_meaning.specs.Lists.{is_at, is_of, member_copied, without_entries, without_sets};
ghost use Rattle.jcl_meaning.specs.Stores.{entry_in, group_of, is_later, member_of, set_in, store_of, volume_of, with_entry, with_set};

use group_core::entry::CatEntry;
use group_core::group::Group;
use jcl_meaning::names::same_key;
use jcl_meaning::store::{DataSet, SoloEntry, SoloSet, SoloStore};
use jcl_plan::day::Day;
use jname_core::ds_name::DsName;
use jname_core::key::Key;
use jname_core::serial::Serial;
use plain::listed::Listed;
use std::alloc::{AllocError, Global};
use std::mem;

pub(crate) fn is_at(key: &Key, serial: Serial, x: &SoloSet) -> bool
    ensures { result ≡ is_at key.now serial x.now }
{
    same_key(key, &x.key) && serial.as_slice() == x.serial.as_slice()
}

pub(crate) fn is_of(name: &DsName, x: &SoloEntry) -> bool
    ensures { result ≡ is_of name.now x.now }
{
    name.as_slice() == x.name.as_slice()
}

/// Whether a set's day, if it has one, is later than today.
pub fn is_later(expires: Option<u32>, date: Day) -> bool
    ensures { result ≡ is_later expires date }
{
    match expires {
        None => false,
        Some(day) => date.number() < day,
    }
}

/// The set of a key on a volume.
pub fn set_in<'a>(store: &'a SoloStore, key: &Key, serial: Serial) -> Option<&'a DataSet>
    ensures { option_copied result ≡ set_in store.now.sets key.now serial }
{
    for x in store.sets.as_slice() {
        if is_at(key, serial, x) {
            return Some(&x.set);
        }
    }
    None
}

/// What the catalog has for a name.
pub fn entry_in<'a>(store: &'a SoloStore, name: &DsName) -> Option<&'a CatEntry>
    ensures { option_copied result ≡ entry_in store.now.catalog name.now }
{
    for x in store.catalog.as_slice() {
        if is_of(name, x) {
            return Some(&x.entry);
        }
    }
    None
}

/// The group of a base.
pub(crate) fn group_of<'a>(store: &'a SoloStore, base: &DsName) -> Option<&'a Group>
    ensures { option_copied result ≡ group_of (store_of store.now) base.now }
{
    match entry_in(store, base) {
        Some(CatEntry::Group(group)) => Some(group),
        Some(CatEntry::Volume(_)) => None,
        None => None,
    }
}

/// The volume of a name's own entry.
pub(crate) fn own_volume(store: &SoloStore, name: &DsName) -> Option<Serial>
    ensures { result ≡ volume_in (entry_in store.now.catalog name.now) }
{
    match entry_in(store, name) {
        Some(CatEntry::Volume(serial)) => Some(*serial),
        Some(CatEntry::Group(_)) => None,
        None => None,
    }
}

/// The number of a name in the group of its base, and that group.
pub(crate) fn member_of<'a>(store: &'a SoloStore, name: &DsName) -> Option<(u16, &'a Group)>
    ensures member { member_copied result ≡ member_of (store_of store.now) name.now }
    ensures range { IfSome result (λ m. (0 < m.0) × (m.0 ≤ 9999)) }
    ensures short { OnSome result (length (base_of name.now) ≤ 35) }
{
    let number = name.generation_of()?;
    if number == 0 {
        return None;
    }
    let group = group_of(store, &name.base_of())?;
    Some((number, group))
}

/// The volume that the catalog has for a name.
pub(crate) fn volume_of(store: &SoloStore, name: &DsName) -> Option<Serial>
    ensures { result ≡ volume_of (store_of store.now) name.now }
{
    match member_of(store, name) {
        Some((number, group)) => group.find(number),
        None => own_volume(store, name),
    }
}

/// Takes the sets of a key off a volume.
fn drop_sets(sets: &mut Vec<SoloSet>, key: &Key, serial: Serial)
    ensures { sets.new.items ≡ without_sets sets.old.items key.now serial }
{
    sets.retain(|x| !is_at(key, serial, x));
}

fn drop_entries(entries: &mut Vec<SoloEntry>, name: &DsName)
    ensures value { entries.new.items ≡ without_entries entries.old.items name.now }
    ensures capacity { vec_capacity entries.new ≡ vec_capacity entries.old }
    ensures count { vec_len entries.new ≤ vec_len entries.old }
{
    entries.retain(|x| !is_of(name, x));
}

/// Puts an entry behind the others, in room that there is.
fn add_entry(entries: &mut Vec<SoloEntry>, entry: SoloEntry)
    requires { vec_len entries.old < vec_capacity entries.old }
    ensures { entries.new.items ≡ entries.old.items ++ entry ∷ [] }
{
    if entries.push(entry).is_err() {
        unreachable!();
    }
}

/// Puts an entry in place of any of its name. An `Err` changes nothing.
fn replace_entry(
    entries: &mut Vec<SoloEntry>,
    name: &DsName,
    entry: CatEntry,
) -> Result<(), AllocError>
    ensures ok { OnOk result (entries.new.items ≡ without_entries entries.old.items name.now ++ record { name = name.now; entry = entry } ∷ []) }
    ensures err { OnErr result (entries.new.items ≡ entries.old.items) }
{
    entries.reserve(1)?;
    drop_entries(entries, name);
    add_entry(entries, SoloEntry { name: *name, entry });
    Ok(())
}

/// Takes the set of a key off a volume.
pub(crate) fn scratch(alloc: Global, store: &mut SoloStore, key: &Key, serial: Serial)
    ensures sets { store_of store.new ≡ with_set (store_of store.old) key.now serial None }
    ensures others { store.new ≡ record store.old { sets = without_sets store.old.sets key.now serial } }
{
    let mut sets = mem::replace(&mut store.sets, Listed::empty(alloc)).into_vec();
    drop_sets(&mut sets, key, serial);
    store.sets = Listed::new(sets);
}

/// Takes the entry of a name out of the catalog.
pub(crate) fn remove_entry(alloc: Global, store: &mut SoloStore, name: &DsName)
    ensures entry { store_of store.new ≡ with_entry (store_of store.old) name.now None }
    ensures others { store.new ≡ record store.old { catalog = without_entries store.old.catalog name.now } }
{
    let mut entries = mem::replace(&mut store.catalog, Listed::empty(alloc)).into_vec();
    drop_entries(&mut entries, name);
    store.catalog = Listed::new(entries);
}

pub(crate) fn put_entry(
    alloc: Global,
    store: &mut SoloStore,
    name: &DsName,
    entry: CatEntry,
) -> Result<(), AllocError>
    ensures entry { OnOk result (store_of store.new ≡ with_entry (store_of store.old) name.now (Some entry)) }
    ensures err { OnErr result (store.new ≡ store.old) }
    ensures others { store.new.volumes ≡ store.old.volumes }
{
    let mut entries = mem::replace(&mut store.catalog, Listed::empty(alloc)).into_vec();
    let put = replace_entry(&mut entries, name, entry);
    store.catalog = Listed::new(entries);
    put?;
    Ok(())
}
