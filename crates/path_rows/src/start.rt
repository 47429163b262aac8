//! What a job finds as it starts.
ghost use Rattle.std.specs.Prelude.{IfOk};
ghost use Rattle.jcl_meaning.specs.Stores.{store_of};
ghost use Rattle.part_laws.specs.Keeping.{HasSoundGroups};
ghost use Rattle.path_rows.specs.Catalogs.{AreVolumes};

use crate::case::Case;
use group_core::entry::CatEntry;
use jcl_meaning::places::Places;
use jcl_meaning::store::{SoloEntry, SoloSet, SoloStore};
use jcl_plan::day::Day;
use jname_core::ds_name::DsName;
use jname_core::serial::Serial;
use path_core::start::StartView;
use plain::listed::Listed;
use std::alloc::{AllocError, Global};

/// A catalog of volumes alone.
fn catalog_of(alloc: Global, entries: &[(DsName, Serial)]) -> Result<Listed<SoloEntry>, AllocError>
    ensures { IfOk result (λ catalog. AreVolumes catalog) }
{
    let mut catalog = Listed::empty(alloc);
    for (name, serial) in entries {
        catalog.push(SoloEntry {
            name: *name,
            entry: CatEntry::Volume(*serial),
        })?;
    }
    Ok(catalog)
}

fn sets_of(alloc: Global, sets: &[SoloSet]) -> Result<Listed<SoloSet>, AllocError> {
    let mut copies = Listed::empty(alloc);
    for set in sets {
        copies.push(set.clone()?)?;
    }
    Ok(copies)
}

/// What the job of a case finds on this day, whose sets are made at these places.
pub(crate) fn start_of(
    alloc: Global,
    case: &Case<'_>,
    places: Places,
    date: Day,
) -> Result<StartView, AllocError>
    ensures { IfOk result (λ start. HasSoundGroups (store_of start.store)) }
{
    let volumes = case.volumes.clone()?;
    let sets = sets_of(alloc, case.sets.as_slice())?;
    let catalog = catalog_of(alloc, case.entries.as_slice())?;
    Ok(StartView {
        store: SoloStore {
            volumes,
            sets,
            catalog,
        },
        places,
        date,
        most_views: case.most_views,
    })
}
