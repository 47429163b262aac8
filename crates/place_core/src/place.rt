//! The places of a job's sets.
ghost use Rattle.std.specs.Prelude.{◌≡◌, ℕ, ◌+◌, [], IfOk, OnErr, OnOk, Some};
ghost use Rattle.jcl_plan.specs.declared.plan.DdKind.TheVariants.{Set};
ghost use Rattle.world_meaning.specs.Placements.{ArePlaces};
ghost use Rattle.world_meaning.specs.Worlds.{Config};
ghost use Rattle.place_core.specs.Placings.{ArePlaced, IsClearFrom, NothingKeptFor, candidates, placed, placed_among, placed_dd, placed_dds, placed_steps};
ghost use Rattle.place_core.specs.Placings.{placing, serials_of};
ghost use Rattle.place_core.specs.Volumes.{IsClear, all_back};

use crate::aside::{aside_among, give_all_back, give_back};
use crate::rule::{is_placed, unit_volumes};
use jcl_meaning::places::Places;
use jcl_meaning::state::Place;
use jcl_plan::plan::{DdKind, DdPlan, JobPlan, SetPlan, StepPlan, VolumePlan};
use jname_core::serial::Serial;
use mount_core::mounted::Mounted;
use mount_core::place::KeptPlace;
use plain::listed::Listed;
use shared_core::store::SharedStore;
use std::alloc::{AllocError, Global};
use std::mem;
use store_core::take::primary_of;

/// Places a set on one of these volumes. An `Err` changes nothing.
fn place_among(
    volumes: &mut [Mounted],
    places: &mut Places,
    among: &[Serial],
    at: KeptPlace,
    tracks: u16,
) -> Result<(), AllocError>
    requires { IsClear volumes.old at }
    ensures ok { OnOk result (ArePlaced (placed_among among.now at tracks (placing volumes.old places.old)) volumes.new places.new) }
    ensures err { OnErr result ((volumes.new ≡ volumes.old) × (places.new ≡ places.old)) }
{
    let Some(serial) = aside_among(volumes, among, at, tracks)? else {
        return Ok(());
    };
    let place = Place {
        step: at.step,
        dd: at.dd,
        serial,
    };
    match places.push(place) {
        Ok(()) => Ok(()),
        Err(_) => {
            give_back(volumes, serial, &at);
            Err(AllocError)
        }
    }
}

/// Places a set by its way to a volume, where these volumes are listed for its unit. An `Err` changes nothing.
fn place_by(
    volumes: &mut [Mounted],
    places: &mut Places,
    volume: &VolumePlan,
    listed: &[Serial],
    at: KeptPlace,
    tracks: u16,
) -> Result<(), AllocError>
    requires { IsClear volumes.old at }
    ensures ok { OnOk result (ArePlaced (placed_among (candidates volume.now listed.now) at tracks (placing volumes.old places.old)) volumes.new places.new) }
    ensures err { OnErr result ((volumes.new ≡ volumes.old) × (places.new ≡ places.old)) }
{
    match volume {
        VolumePlan::NotCoded => place_among(volumes, places, listed, at, tracks),
        VolumePlan::Serial(serial) => place_among(volumes, places, &[*serial], at, tracks),
        VolumePlan::OfName(_) => Ok(()),
        VolumePlan::OfDd { .. } => Ok(()),
    }
}

/// Places the set of a DD, if it is placed. An `Err` changes nothing.
fn place_set(
    volumes: &mut [Mounted],
    places: &mut Places,
    all: &[Serial],
    units: &[Listed<Serial>],
    at: KeptPlace,
    plan: &SetPlan,
) -> Result<(), AllocError>
    requires { IsClear volumes.old at }
    ensures ok { OnOk result (ArePlaced (placed_dd all.now units.now at (Set plan.now) (placing volumes.old places.old)) volumes.new places.new) }
    ensures err { OnErr result ((volumes.new ≡ volumes.old) × (places.new ≡ places.old)) }
{
    if !is_placed(plan.status, &plan.volume) {
        return Ok(());
    }
    let listed = unit_volumes(all, units, plan.units);
    let tracks = primary_of(&plan.space);
    place_by(volumes, places, &plan.volume, listed, at, tracks)
}

/// Places what a DD makes, if it makes a set. An `Err` changes nothing.
fn place_dd(
    volumes: &mut [Mounted],
    places: &mut Places,
    all: &[Serial],
    units: &[Listed<Serial>],
    at: KeptPlace,
    kind: &DdKind,
) -> Result<(), AllocError>
    requires { IsClear volumes.old at }
    ensures ok { OnOk result (ArePlaced (placed_dd all.now units.now at kind.now (placing volumes.old places.old)) volumes.new places.new) }
    ensures err { OnErr result ((volumes.new ≡ volumes.old) × (places.new ≡ places.old)) }
{
    match kind {
        DdKind::Sysout(_) => Ok(()),
        DdKind::Dummy => Ok(()),
        DdKind::Cards(_) => Ok(()),
        DdKind::Set(plan) => place_set(volumes, places, all, units, at, plan),
    }
}

/// Places the sets of a step's DDs. What is set aside stays so that it can be given back, also on an `Err`.
fn place_dds(
    volumes: &mut [Mounted],
    places: &mut Places,
    all: &[Serial],
    units: &[Listed<Serial>],
    job: u16,
    step: usize,
    dds: &[DdPlan],
) -> Result<(), AllocError>
    requires { IsClearFrom volumes.old job step 1 }
    ensures ok { OnOk result (ArePlaced (placed_dds all.now units.now job step 1 dds.now (placing volumes.old places.old)) volumes.new places.new) }
    ensures clear { IsClearFrom volumes.new job (step + 1) 1 }
    ensures back { all_back job places.new volumes.new ≡ all_back job places.old volumes.old }
{
    for (i, d) in dds.iter().enumerate() {
        let at = KeptPlace {
            job,
            step,
            dd: i + 1,
        };
        place_dd(volumes, places, all, units, at, &d.kind)?;
    }
    Ok(())
}

/// Places the sets of a job's steps. What is set aside stays so that it can be given back, also on an `Err`.
fn place_steps(
    volumes: &mut [Mounted],
    places: &mut Places,
    all: &[Serial],
    units: &[Listed<Serial>],
    job: u16,
    steps: &[StepPlan],
) -> Result<(), AllocError>
    requires { IsClearFrom volumes.old job 1 1 }
    ensures places { OnOk result (places.new ≡ (placed_steps all.now units.now job 1 steps.now (placing volumes.old places.old)).places) }
    ensures back { all_back job places.new volumes.new ≡ all_back job places.old volumes.old }
{
    for (i, step) in steps.iter().enumerate() {
        place_dds(volumes, places, all, units, job, i + 1, step.dds.as_slice())?;
    }
    Ok(())
}

/// The serials of the volumes, in their order.
pub fn serials_of(alloc: Global, volumes: &[Mounted]) -> Result<Listed<Serial>, AllocError>
    ensures { IfOk result (λ serials. serials ≡ serials_of volumes.now) }
{
    let mut serials = Listed::empty(alloc);
    for mounted in volumes {
        serials.push(mounted.serial())?;
    }
    Ok(serials)
}

/// The places of the sets that a job may make: of each DD with NEW, or with MOD and no VOL, in the order of steps and DDs. A set is placed on the volume
/// that VOL=SER names; without VOL on the first of its unit's volumes on which its primary can be set aside once those of the DDs before it are, and on
/// the first of them where it can nowhere or is 0. The store is as it was.
pub fn place_sets(
    alloc: Global,
    store: &mut SharedStore,
    job: u16,
    plan: &JobPlan,
    units: &[Listed<Serial>],
) -> Result<Places, AllocError>
    requires { NothingKeptFor job store.old }
    ensures store { store.new ≡ store.old }
    ensures places { IfOk result (λ places. places ≡ placed store.old.volumes units.now job plan.now) }
    ensures configured { IfOk result (λ places. (c : Config) → c.volumes ≡ serials_of store.old.volumes → c.units ≡ units.now → ArePlaces c plan.now places) }
{
    let all = serials_of(alloc, store.volumes.as_slice())?;
    let mut volumes = mem::replace(&mut store.volumes, Listed::empty(alloc)).into_vec();
    let mut places = Places::empty(alloc);
    let done = place_steps(
        volumes.as_mut_slice(),
        &mut places,
        all.as_slice(),
        units,
        job,
        plan.steps.as_slice(),
    );
    give_all_back(volumes.as_mut_slice(), places.as_slice(), job);
    store.volumes = Listed::new(volumes);
    match done {
        Ok(()) => Ok(places),
        Err(_) => Err(AllocError),
    }
}
