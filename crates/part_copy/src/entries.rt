//! The entries of the catalog that a job sees.
ghost use Rattle.std.specs.Prelude.{◌≡◌, ◌++◌, ℕ, List, IfOk, IfSome, OnOk, Some, true};
ghost use Rattle.std.specs.FinMap as map;
ghost use Rattle.jcl_meaning.specs.Parts.{seen_entry};
ghost use Rattle.jcl_meaning.specs.Stores.{entry_in};
ghost use Rattle.jname_core.specs.Generations.{above_generations, below_generations};
ghost use Rattle.cat_core.specs.Catalogs.{entry_among, is_generation_of};
ghost use Rattle.part_copy.specs.Copies.{AddsEntries, copies_of_entries, copies_of_entry, is_of_name, is_of_some};

use cat_core::catalog::Catalog;
use group_core::entry::CatEntry;
use jcl_meaning::names::HeldName;
use jcl_meaning::store::SoloEntry;
use jname_core::ds_name::DsName;
use plain::listed::Listed;
use std::alloc::{AllocError, Global};
use std::collections::btree_map::Range;

/// Adds the copy of a name's own entry, where there is one.
fn copy_entry(
    entries: &mut Listed<SoloEntry>,
    catalog: &Catalog,
    name: &DsName,
) -> Result<(), AllocError>
    ensures { OnOk result (entries.new ≡ entries.old ++ copies_of_entry name.now (map.get catalog.now name.now)) }
{
    if let Some(entry) = catalog.entry(name) {
        let entry = entry.clone()?;
        entries.push(SoloEntry { name: *name, entry })?;
    }
    Ok(())
}

/// Adds the copies of those of these entries whose names are held under this one.
fn copy_entries(
    entries: &mut Listed<SoloEntry>,
    held: &DsName,
    all: Range<'_, DsName, CatEntry>,
) -> Result<(), AllocError>
    ensures { OnOk result (entries.new ≡ entries.old ++ copies_of_entries held.now all.entry) }
{
    for (name, entry) in all {
        if held.as_slice() == name.base_of().as_slice() {
            let entry = entry.clone()?;
            entries.push(SoloEntry { name: *name, entry })?;
        }
    }
    Ok(())
}

/// The entries between two names that stand around all generations of a base.
fn entries_between<'a>(
    catalog: &'a Catalog,
    base: &DsName,
    below: DsName,
    above: DsName,
) -> Range<'a, DsName, CatEntry>
    requires below { below ≡ below_generations base.now }
    requires above { above ≡ above_generations base.now }
    ensures there { (name : List ℕ) → IfSome (entry_among result name) (λ e. map.get catalog.now name ≡ Some e) }
    ensures all { (name : List ℕ) → is_generation_of base.now name ≡ true → entry_among result name ≡ map.get catalog.now name }
{
    catalog.entries_between(below, above)
}

/// Entries among which those of all generations of a base are.
fn generation_entries<'a>(catalog: &'a Catalog, base: &DsName) -> Range<'a, DsName, CatEntry>
    ensures there { (name : List ℕ) → IfSome (entry_among result name) (λ e. map.get catalog.now name ≡ Some e) }
    ensures all { (name : List ℕ) → is_generation_of base.now name ≡ true → entry_among result name ≡ map.get catalog.now name }
{
    match base.generation_bounds() {
        Some((below, above)) => entries_between(catalog, base, below, above),
        None => catalog.entries_from(*base),
    }
}

/// Adds the copies of the entries of a name: its own, and those of its generations.
fn copy_held(
    entries: &mut Listed<SoloEntry>,
    catalog: &Catalog,
    name: &DsName,
) -> Result<(), AllocError>
    ensures { OnOk result (AddsEntries (λ n. map.get catalog.now n) (is_of_name name.now) entries.old entries.new) }
{
    copy_entry(entries, catalog, name)?;
    copy_entries(entries, name, generation_entries(catalog, name))
}

/// Adds the copies of the entries of these names.
fn copy_all_held(
    entries: &mut Listed<SoloEntry>,
    catalog: &Catalog,
    names: &[HeldName],
) -> Result<(), AllocError>
    ensures { OnOk result (AddsEntries (λ n. map.get catalog.now n) (is_of_some names.now) entries.old entries.new) }
{
    for held in names {
        copy_held(entries, catalog, &held.name)?;
    }
    Ok(())
}

/// The copies of the entries that a job with these names sees.
pub(crate) fn entries_seen(
    alloc: Global,
    catalog: &Catalog,
    names: &[HeldName],
) -> Result<Listed<SoloEntry>, AllocError>
    ensures copied { IfOk result (λ all. (n : List ℕ) → IfSome (entry_in all n) (λ e. map.get catalog.now n ≡ Some e)) }
    ensures seen { IfOk result (λ all. (n : List ℕ) → seen_entry names.now n (map.get catalog.now n) ≡ seen_entry names.now n (entry_in all n)) }
{
    let mut entries = Listed::empty(alloc);
    copy_all_held(&mut entries, catalog, names)?;
    Ok(entries)
}
