//! A job before its admission.
ghost use Rattle.std.specs.Prelude.{◌≡◌, IfOk};
ghost use Rattle.jcl_meaning.specs.WellFormed.{IsWellFormedPlan};
ghost use Rattle.part_laws.specs.Keeping.{HasSoundGroups};
ghost use Rattle.place_core.specs.Placings.{NothingKeptFor};
ghost use Rattle.shared_core.specs.Shown.{world_store_of};
ghost use Rattle.world_meaning.specs.Lenses.{seen};
ghost use Rattle.verdict_core.specs.Judging.{IsJudged};

use crate::known::KnownPlan;
use crate::verdict::{Finding, verdict_in};
use jcl_meaning::meanings::Meanings;
use jcl_meaning::places::Places;
use jcl_plan::day::Day;
use jname_core::serial::Serial;
use place_core::place::place_sets;
use plain::listed::Listed;
use shared_core::store::SharedStore;
use std::alloc::{AllocError, Global};
use store_core::meanings::{SeenBy, meanings_of};

/// Where a job's sets are placed, what its keys mean, and what may become of it so.
#[derive(Drop)]
pub struct Judged {
    pub places: Places,
    pub meanings: Meanings,
    pub finding: Finding,
}

/// Places a job's sets and tells what may become of it so, on a date, with this many views behind a step at most. The store is as it was.
pub fn judge(
    alloc: Global,
    store: &mut SharedStore,
    job: u16,
    known: &mut KnownPlan,
    units: &[Listed<Serial>],
    date: Day,
    most_views: usize,
    explains: bool,
) -> Result<Judged, AllocError>
    requires none { NothingKeptFor job store.old }
    requires plan { IsWellFormedPlan known.old }
    requires groups { HasSoundGroups (seen job (world_store_of store.old)) }
    ensures judged { IfOk result (IsJudged store.old units.now job known.old date most_views explains) }
    ensures store { store.new ≡ store.old }
    ensures same { known.new ≡ known.old }
{
    let places = place_sets(alloc, store, job, known.plan(), units)?;
    let seen = SeenBy {
        store: &*store,
        job,
    };
    let meanings = meanings_of(alloc, known.plan(), &seen)?;
    let (finding, places) = verdict_in(
        alloc, &*store, job, known, places, &meanings, date, most_views, explains,
    )?;
    Ok(Judged {
        places,
        meanings,
        finding,
    })
}
