//! The entries of a catalog by their names.
ghost use Rattle.std.specs.Prelude.{◌≡◌, ◌<◌, ◌≤◌, None, Some, IfOk, OnErr, OnOk};
ghost use Rattle.std.specs.Option.{option_copied};
ghost use Rattle.group_core.specs.Entries.{group_in};
ghost use Rattle.group_core.specs.Groups.{RollsInRange};
ghost use Rattle.jcl_meaning.specs.Stores.{entry_in};
ghost use Rattle.store_core.specs.Entered.{entry_with, entry_without};
ghost use Rattle.store_core.specs.EnteredNumbers.{EntersNumber, TakesNumber};
ghost use Rattle.seen_store.specs.Listing.{AreEntries, ChangesEntry, WritesEntry, entries_of};

use group_core::entry::CatEntry;
use group_core::group::Rolled;
use jcl_meaning::store::SoloEntry;
use jname_core::ds_name::DsName;
use jname_core::serial::Serial;
use std::alloc::{AllocError, Global};
use std::collections::BTreeMap;

pub(crate) type Entries = BTreeMap<DsName, CatEntry>;

/// What the catalog has for a name.
pub(crate) fn entry_at<'a>(entries: &'a Entries, name: &DsName) -> Option<&'a CatEntry>
    ensures { option_copied result ≡ entry_in (entries_of entries.now.entries) name.now }
{
    entries.get(name)
}

/// Puts an entry in place of what is there for its name. An `Err` changes nothing.
pub(crate) fn put_entry(
    entries: &mut Entries,
    name: &DsName,
    entry: CatEntry,
) -> Result<(), AllocError>
    ensures ok { OnOk result (WritesEntry entries.old.entries entries.new.entries name.now (Some entry)) }
    ensures err { OnErr result (entries.new.entries ≡ entries.old.entries) }
{
    match entries.insert(*name, entry) {
        Ok(_) => Ok(()),
        Err(_) => Err(AllocError),
    }
}

/// Takes the entry of a name out.
pub(crate) fn drop_entry(entries: &mut Entries, name: &DsName)
    ensures { WritesEntry entries.old.entries entries.new.entries name.now None }
{
    entries.remove(name);
}

/// Takes a number out of a group.
fn drop_number_in(entry: &mut CatEntry, number: u16)
    ensures { entry.new ≡ entry_without entry.old number }
{
    match entry {
        CatEntry::Group(group) => match group.remove(number) {
            Ok(()) => {}
            Err(_) => {}
        },
        CatEntry::Volume(_) => {}
    }
}

/// Takes a number out of the group of a base.
pub(crate) fn drop_number(entries: &mut Entries, base: &DsName, number: u16)
    ensures { ChangesEntry (λ e. entry_without e number) entries.old.entries entries.new.entries base.now }
{
    match entries.get_mut(base) {
        Some(entry) => drop_number_in(entry, number),
        None => {}
    }
}

/// Enters a number in a group.
fn enter_number_in(entry: &mut CatEntry, number: u16, serial: Serial) -> Rolled
    requires range { (0 < number) × (number ≤ 9999) }
    requires group { TakesNumber (group_in (Some entry.old)) number serial }
    ensures answer { EntersNumber (group_in (Some entry.old)) number serial result }
    ensures range { RollsInRange result }
    ensures entry { entry.new ≡ entry_with entry.old number serial }
{
    match entry {
        CatEntry::Group(group) => match group.enter(number, serial) {
            Ok(rolled) => rolled,
            Err(_) => unreachable!(),
        },
        CatEntry::Volume(_) => unreachable!(),
    }
}

/// Enters a number in the group of a base.
pub(crate) fn enter_number(
    entries: &mut Entries,
    base: &DsName,
    number: u16,
    serial: Serial,
) -> Rolled
    requires range { (0 < number) × (number ≤ 9999) }
    requires group { TakesNumber (group_in (entry_in (entries_of entries.old.entries) base.now)) number serial }
    ensures answer { EntersNumber (group_in (entry_in (entries_of entries.old.entries) base.now)) number serial result }
    ensures range { RollsInRange result }
    ensures entry { ChangesEntry (λ e. entry_with e number serial) entries.old.entries entries.new.entries base.now }
{
    match entries.get_mut(base) {
        Some(entry) => enter_number_in(entry, number, serial),
        None => unreachable!(),
    }
}

/// The entries of a list by their names: of two for one name the first.
pub(crate) fn entries_by_name(alloc: Global, list: &[SoloEntry]) -> Result<Entries, AllocError>
    ensures { IfOk result (λ entries. AreEntries entries.entries list.now) }
{
    let mut entries = BTreeMap::new(alloc);
    let mut left = list.len();
    while left > 0 {
        left -= 1;
        let x = &list[left];
        put_entry(&mut entries, &x.name, x.entry.clone()?)?;
    }
    Ok(entries)
}

pub(crate) fn copy_of_entries(entries: &Entries) -> Result<Entries, AllocError>
    ensures { IfOk result (λ copy. copy.entries ≡ entries.now.entries) }
{
    entries.clone()
}
