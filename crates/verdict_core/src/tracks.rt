//! The tracks that a job asks for. (This profile)
ghost use Rattle.std.specs.Prelude.{◌≡◌, ◌+◌, ◌^◌, ◌≤◌, IfOk, OnErr};
ghost use Rattle.world_meaning.specs.Admissions.{tracks_asked};

use jcl_meaning::state::Place;
use jcl_plan::plan::JobPlan;
use place_core::keep::asked_at;
use std::alloc::AllocError;

/// A sum; one past a machine word is answered as want of memory.
fn sum(a: usize, b: usize) -> Result<usize, AllocError>
    ensures sum { IfOk result (λ n. n ≡ a + b) }
    ensures past { OnErr result (2 ^ 64 ≤ a + b) }
{
    match a.checked_add(b) {
        Some(n) => Ok(n),
        None => Err(AllocError),
    }
}

/// The primaries that a job's DDs ask for at these places. It takes no memory; a number past a machine word, and no other, is answered as want of it.
pub fn tracks_asked(plan: &JobPlan, places: &[Place]) -> Result<usize, AllocError>
    ensures sum { IfOk result (λ n. n ≡ tracks_asked plan.now places.now) }
    ensures past { OnErr result (2 ^ 64 ≤ tracks_asked plan.now places.now) }
{
    let mut tracks = 0;
    for place in places {
        let primary = asked_at(plan, place);
        tracks = sum(tracks, usize::from(primary))?;
    }
    Ok(tracks)
}
