//! The kept lists by their places.
ghost use Rattle.std.specs.Prelude.{◌≡◌, IfNone, IfSome, OnErr, OnOk, is_some};
ghost use Rattle.std.specs.FinMap as map;
ghost use Rattle.std.specs.Option.{option_map};
ghost use Rattle.mount_core.specs.Kept.{IsKeptFor, KeepsNoneFor, kept_of};

use crate::place::{KeptExtents, KeptPlace};
use arrayvec::ArrayVec;
use extent_core::extent::Extent;
use std::alloc::AllocError;
use std::collections::BTreeMap;

pub(crate) type Lists = BTreeMap<KeptPlace, KeptExtents>;

/// Whether the place is taken.
pub(crate) fn is_taken(lists: &Lists, place: &KeptPlace) -> bool
    ensures { result ≡ is_some (map.get (kept_of lists.now.entries) place.now) }
{
    lists.contains_key(place)
}

/// The extents of a place, copied.
pub(crate) fn extents_at(lists: &Lists, place: &KeptPlace) -> Option<ArrayVec<Extent, 5>>
    ensures { option_map (λ v. v.items) result ≡ map.get (kept_of lists.now.entries) place.now }
{
    match lists.get(place) {
        Some(list) => Some(copy_of(&list.extents)),
        None => None,
    }
}

pub(crate) fn copy_of(extents: &ArrayVec<Extent, 5>) -> ArrayVec<Extent, 5>
    ensures { result.items ≡ extents.now.items }
{
    let mut all = ArrayVec::new();
    let _ = all.try_extend_from_slice(extents.as_slice());
    all
}

/// Puts a list at a place. The error is want of memory, and changes nothing.
pub(crate) fn put(
    lists: &mut Lists,
    place: KeptPlace,
    extents: ArrayVec<Extent, 5>,
) -> Result<(), AllocError>
    ensures ok { OnOk result (kept_of lists.new.entries ≡ map.insert (kept_of lists.old.entries) place extents.items) }
    ensures err { OnErr result (kept_of lists.new.entries ≡ kept_of lists.old.entries) }
{
    match lists.insert(place, KeptExtents { extents }) {
        Ok(_) => Ok(()),
        Err(_) => Err(AllocError),
    }
}

/// Takes a place out.
pub(crate) fn drop_place(lists: &mut Lists, place: &KeptPlace)
    ensures { kept_of lists.new.entries ≡ map.remove (kept_of lists.old.entries) place.now }
{
    lists.remove(place);
}

/// The first place of a job.
pub(crate) fn first_for(lists: &Lists, job: u16) -> Option<KeptPlace>
    ensures some { IfSome result (IsKeptFor (kept_of lists.now.entries) job) }
    ensures none { IfNone result (KeepsNoneFor (kept_of lists.now.entries) job) }
{
    let lowest = KeptPlace {
        job,
        step: 0,
        dd: 0,
    };
    let (place, _) = lists.range(lowest..).next()?;
    if place.job != job {
        return None;
    }
    Some(*place)
}
