//! The search for space: which free extents are taken for a number of tracks.
ghost use Rattle.std.specs.Prelude.{◌≡◌, ◌≤◌, [], List, Bool, Some, None, IfOk, IsTrue, IsFalse, MatchOption, false, true, length};
ghost use Rattle.jcl_plan.specs.declared.plan.TheConstants.{MOST_TRACKS};
ghost use Rattle.extent_core.specs.Extents.{free_extents};
ghost use Rattle.vtoc_core.specs.Extents.{are_free, is_free_track, largest_taken};
ghost use Rattle.vtoc_core.specs.Searches.{TakenInTurn, WereTaken, marked_each, TakesNone, TakesPlanned, largest_in, planned_in};

use crate::entry::Extent;
use crate::volume::Track;
use arrayvec::ArrayVec;
use extent_core::free::FreeExtents;
use std::alloc::{AllocError, Global};

fn is_free(track: Track) -> bool
    ensures { result ≡ is_free_track track }
{
    match track {
        Track::Free => true,
        Track::Aside => false,
        Track::InSet => false,
        Track::Unusable => false,
    }
}

/// Where tracks are free.
pub(crate) fn free_among(alloc: Global, tracks: &[Track]) -> Result<FreeExtents, AllocError>
    requires { length tracks.now ≤ MOST_TRACKS }
    ensures { IfOk result (λ free. free ≡ are_free tracks.now) }
{
    let mut free = FreeExtents::new(alloc, tracks.len() as u16)?;
    for at in 0..tracks.len() {
        if is_free(tracks[at]) {
            free.free(Extent {
                start: at as u16,
                tracks: 1,
            });
        }
    }
    Ok(free)
}

/// Frees extents, one after another.
pub(crate) fn free_all(free: &mut FreeExtents, extents: &[Extent])
    requires { TakenInTurn free.old extents.now }
    ensures { free.new ≡ marked_each true extents.now free.old }
{
    for extent in extents {
        free.free(*extent);
    }
}

/// Frees the extents that were taken, the last first.
fn put_back(free: &mut FreeExtents, extents: ArrayVec<Extent, 5>)
    requires { (before : List Bool) × WereTaken before extents.items free.old }
    ensures { (before : List Bool) → WereTaken before extents.items free.old → free.new ≡ before }
{
    let mut taken = extents;
    while let Some(extent) = taken.pop() {
        free.free(extent);
    }
}

/// Takes the largest extent again and again, five times at most, until so many tracks are taken, and tells whether they are.
fn take_each(free: &mut FreeExtents, taken: &mut ArrayVec<Extent, 5>, wanted: u16) -> bool
    requires { taken.old.items ≡ [] }
    ensures all { IsTrue result → largest_taken 5 (free_extents free.old) wanted ≡ Some taken.new.items }
    ensures marked { IsTrue result → free.new ≡ marked_each false taken.new.items free.old }
    ensures few { IsFalse result → largest_taken 5 (free_extents free.old) wanted ≡ None }
    ensures taken { IsFalse result → WereTaken free.old taken.new.items free.new }
{
    let mut left = wanted;
    for _turn in 0..5usize {
        let Some(largest) = free.largest() else {
            return false;
        };
        if left <= largest.tracks {
            free.take_front(largest, left);
            taken.push(Extent {
                start: largest.start,
                tracks: left,
            });
            return true;
        }
        free.take_front(largest, largest.tracks);
        taken.push(largest);
        left -= largest.tracks;
    }
    false
}

/// Takes the largest extents for so many tracks, five at most. If they do not hold them, none is taken.
fn take_largest(free: &mut FreeExtents, wanted: u16) -> Option<ArrayVec<Extent, 5>>
    ensures { let plan = largest_in free.old wanted in MatchOption result (TakesNone plan free.old free.new) (λ t. TakesPlanned plan t.items free.old free.new) }
{
    let mut taken = ArrayVec::new();
    if take_each(free, &mut taken, wanted) {
        return Some(taken);
    }
    put_back(free, taken);
    None
}

/// Takes so many tracks. If there is no space for them, none is taken.
pub(crate) fn take(free: &mut FreeExtents, wanted: u16) -> Option<ArrayVec<Extent, 5>>
    ensures { let plan = planned_in free.old wanted in MatchOption result (TakesNone plan free.old free.new) (λ t. TakesPlanned plan t.items free.old free.new) }
{
    let mut taken = ArrayVec::new();
    if wanted == 0 {
        return Some(taken);
    }
    let Some(first) = free.first(wanted) else {
        return take_largest(free, wanted);
    };
    free.take_front(first, wanted);
    taken.push(Extent {
        start: first.start,
        tracks: wanted,
    });
    Some(taken)
}
