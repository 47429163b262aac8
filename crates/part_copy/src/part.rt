//! What a job sees of the store of all jobs, as lists.
ghost use Rattle.std.specs.Prelude.{◌≡◌, IfOk};
ghost use Rattle.jcl_meaning.specs.Stores.{store_of};
ghost use Rattle.part_laws.specs.Keeping.{HasSoundGroups};
ghost use Rattle.world_meaning.specs.Lenses.{seen};
ghost use Rattle.shared_core.specs.Shown.{world_store_of};
ghost use Rattle.place_core.specs.Placings.{serials_of};
ghost use Rattle.part_copy.specs.Parts.{ShowsEntries, ShowsSets};

use crate::entries::entries_seen;
use crate::volumes::sets_seen;
use jcl_meaning::names::HeldName;
use jcl_meaning::store::SoloStore;
use place_core::place::serials_of;
use shared_core::store::SharedStore;
use std::alloc::{AllocError, Global};

/// What a job with these names sees of the store of all jobs, as lists: the sets under its names and its own, each without its tracks and records, their
/// entries, and the volumes. The store is as it was.
pub fn part_of(
    alloc: Global,
    store: &SharedStore,
    job: u16,
    names: &[HeldName],
) -> Result<SoloStore, AllocError>
    ensures sets { IfOk result (λ part. ShowsSets names.now (seen job (world_store_of store.now)) (store_of part)) }
    ensures catalog { IfOk result (λ part. ShowsEntries names.now (seen job (world_store_of store.now)) (store_of part)) }
    ensures volumes { IfOk result (λ part. part.volumes ≡ serials_of store.now.volumes) }
    ensures groups { IfOk result (λ part. HasSoundGroups (seen job (world_store_of store.now)) → HasSoundGroups (store_of part)) }
{
    let volumes = serials_of(alloc, store.volumes.as_slice())?;
    let sets = sets_seen(alloc, job, names, store.volumes.as_slice())?;
    let catalog = entries_seen(alloc, &store.catalog, names)?;
    Ok(SoloStore {
        volumes,
        sets,
        catalog,
    })
}
