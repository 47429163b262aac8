//! The primaries of a job's sets, kept and given back.
ghost use Rattle.std.specs.Prelude.{◌≡◌, IfOk, IfSome, None, Ok, OnErr};
ghost use Rattle.std.specs.List.{AllZip};
ghost use Rattle.world_meaning.specs.Admissions.{asked_at};
ghost use Rattle.place_core.specs.Keepings.{AreApart, AreClearFor, GivesBackAll, IsGivenBackOn, KeepsAll, kept_in};
ghost use Rattle.place_core.specs.Placings.{NothingKeptFor};

use crate::aside::{give_all_back, keep_at, kept_place};
use crate::rule::primary_asked;
use jcl_meaning::state::Place;
use jcl_plan::plan::JobPlan;
use jname_core::serial::Serial;
use mount_core::mounted::Mounted;
use plain::listed::Listed;
use shared_core::store::SharedStore;
use std::alloc::{AllocError, Global};
use std::mem;

/// Keeps the primary of each of these places for a job, in their order, and tells the volume of the first that has no room for it; then, as on an `Err`,
/// nothing changes.
fn keep_on_each(
    volumes: &mut [Mounted],
    job: u16,
    plan: &JobPlan,
    places: &[Place],
) -> Result<Option<Serial>, AllocError>
    requires none { AreClearFor volumes.old job places.now }
    requires apart { AreApart places.now }
    ensures refused { IfOk result (λ serial. serial ≡ (kept_in job plan.now places.now volumes.old).refused) }
    ensures volumes { result ≡ Ok None → volumes.new ≡ (kept_in job plan.now places.now volumes.old).volumes }
    ensures back { IfOk result (λ serial. IfSome serial (λ _. volumes.new ≡ volumes.old)) }
    ensures err { OnErr result (volumes.new ≡ volumes.old) }
{
    for (i, place) in places.iter().enumerate() {
        let at = kept_place(job, place);
        match keep_at(volumes, place.serial, at, asked_at(plan, place)) {
            Ok(true) => {}
            Ok(false) => {
                give_all_back(volumes, &places[..i], job);
                return Ok(Some(place.serial));
            }
            Err(_) => {
                give_all_back(volumes, &places[..i], job);
                return Err(AllocError);
            }
        }
    }
    Ok(None)
}

/// Keeps the primary of each of these places for a job, in their order, and tells the volume of the first that has no room for it; then nothing is kept
/// for the job. An `Err` changes nothing.
pub fn keep_all(
    alloc: Global,
    store: &mut SharedStore,
    job: u16,
    plan: &JobPlan,
    places: &[Place],
) -> Result<Option<Serial>, AllocError>
    requires none { NothingKeptFor job store.old }
    requires apart { AreApart places.now }
    ensures refused { IfOk result (λ serial. serial ≡ (kept_in job plan.now places.now store.old.volumes).refused) }
    ensures kept { result ≡ Ok None → KeepsAll job plan.now places.now store.old store.new }
    ensures volumes { result ≡ Ok None → store.new ≡ record store.old { volumes = (kept_in job plan.now places.now store.old.volumes).volumes } }
    ensures back { IfOk result (λ serial. IfSome serial (λ _. store.new ≡ store.old)) }
    ensures err { OnErr result (store.new ≡ store.old) }
{
    let none = Listed::empty(alloc);
    let mut volumes = mem::replace(&mut store.volumes, none).into_vec();
    let done = keep_on_each(volumes.as_mut_slice(), job, plan, places);
    store.volumes = Listed::new(volumes);
    done
}

/// Gives back all that is kept for a job on these volumes.
fn give_back_on_each(volumes: &mut [Mounted], job: u16)
    ensures { AllZip (IsGivenBackOn job) volumes.old volumes.new }
{
    for mounted in volumes.iter_mut() {
        mounted.give_back_all(job);
    }
}

/// Gives back all that is kept for a job. It takes no memory.
pub fn give_all_back_for(store: &mut SharedStore, job: u16)
    ensures { GivesBackAll job store.old store.new }
{
    let none = Listed::empty(store.alloc);
    let mut volumes = mem::replace(&mut store.volumes, none).into_vec();
    give_back_on_each(volumes.as_mut_slice(), job);
    store.volumes = Listed::new(volumes);
}

/// The primary of the DD of a place, 0 where the plan has none.
pub fn asked_at(plan: &JobPlan, place: &Place) -> u16
    ensures { result ≡ asked_at plan.now place.now }
{
    let Some(step) = plan.steps.as_slice().get(place.step.saturating_sub(1)) else {
        return 0;
    };
    match step.dds.as_slice().get(place.dd.saturating_sub(1)) {
        Some(dd) => primary_asked(&dd.kind),
        None => 0,
    }
}
