//! What may become of a job in the store of all jobs.
ghost use Rattle.std.specs.Prelude.{◌≡◌, IfOk, []};
ghost use Rattle.jcl_meaning.specs.Names.{names_of};
ghost use Rattle.jcl_meaning.specs.Resolutions.{meanings_of};
ghost use Rattle.jcl_meaning.specs.WellFormed.{IsWellFormedPlan};
ghost use Rattle.part_laws.specs.Keeping.{HasSoundGroups};
ghost use Rattle.jcl_meaning.specs.Stores.{store_of};
ghost use Rattle.path_core.specs.Starts.{fixed_from};
ghost use Rattle.shared_core.specs.Shown.{world_store_of};
ghost use Rattle.verdict_core.specs.Judging.{IsFound, IsFoundInStore, IsFoundWhereFree, path_of};
ghost use Rattle.world_meaning.specs.Lenses.{seen};

use crate::known::KnownPlan;
use jcl_meaning::meanings::Meanings;
use jcl_meaning::names::{HeldName, names_of};
use jcl_meaning::places::Places;
use jcl_meaning::state::Place;
use jcl_plan::day::Day;
use jcl_plan::entry::JobLine;
use jcl_plan::plan::JobPlan;
use part_copy::part::part_of;
use part_laws::start_fits;
use path_core::analyse::analyse_named;
use path_core::explain::path_lines;
use path_core::keeping::is_plainly_free;
use path_core::start::StartView;
use path_search::verdict::Verdict;
use plain::listed::Listed;
use shared_core::store::SharedStore;
use start_laws::{
    earliest_is_seen, first_with_more_is_seen, free_is_seen, meanings_are_seen, path_is_seen,
};
use std::alloc::{AllocError, Global};

/// What may become of a job, and the lines of the path to its risk, where they are asked for.
#[derive(Drop)]
pub struct Finding {
    pub verdict: Verdict,
    pub path: Listed<JobLine>,
}

/// The lines of the path to a risk, where they are asked for.
fn path_to(
    alloc: Global,
    plan: &JobPlan,
    start: &StartView,
    verdict: &Verdict,
    explains: bool,
) -> Result<Listed<JobLine>, AllocError>
    ensures { IfOk result (λ path. path ≡ path_of explains (fixed_from start.now plan.now) plan.now (store_of start.now.store) verdict.now) }
{
    if !explains {
        return Ok(Listed::empty(alloc));
    }
    match verdict {
        Verdict::Risk(report) => path_lines(alloc, plan, start, report.path.as_slice()),
        Verdict::Safe(_) => Ok(Listed::empty(alloc)),
        Verdict::TooMany { .. } => Ok(Listed::empty(alloc)),
    }
}

/// What may become of a job that starts so, whose names are these, and whose keys mean this.
fn find_anew(
    alloc: Global,
    plan: &JobPlan,
    start: &StartView,
    names: &[HeldName],
    meanings: &Meanings,
    explains: bool,
) -> Result<Finding, AllocError>
    requires plan { IsWellFormedPlan plan.now }
    requires groups { HasSoundGroups (store_of start.now.store) }
    requires names { names.now ≡ names_of plan.now }
    requires meanings { meanings.now ≡ meanings_of (store_of start.now.store) plan.now }
    ensures { IfOk result (IsFound (fixed_from start.now plan.now) plan.now (store_of start.now.store) start.now.most_views explains) }
{
    let verdict = analyse_named(alloc, plan, start, names, meanings)?;
    let path = path_to(alloc, plan, start, &verdict, explains)?;
    Ok(Finding { verdict, path })
}

/// Keeps what was found of a job that starts so, where it is free.
fn remember(
    alloc: Global,
    known: &mut KnownPlan,
    start: StartView,
    finding: &Finding,
    explains: bool,
) -> Result<(), AllocError>
    requires { IsFound (fixed_from start known.old) known.old (store_of start.store) start.most_views explains finding.now }
    ensures { known.new ≡ known.old }
{
    match &finding.verdict {
        Verdict::Safe(made) => known.remember(alloc, start, made.as_slice()),
        Verdict::Risk(_) => Ok(()),
        Verdict::TooMany { .. } => Ok(()),
    }
}

/// A job that is free makes its sets at these places.
fn free_at(alloc: Global, made: Vec<Place>) -> Finding
    ensures { IsFoundWhereFree made.items result }
{
    Finding {
        verdict: Verdict::Safe(made),
        path: Listed::empty(alloc),
    }
}

/// What may become of a job that starts so, and where its sets are placed. Nothing is looked for where it was free as it started so before.
fn find(
    alloc: Global,
    known: &mut KnownPlan,
    start: StartView,
    names: &[HeldName],
    meanings: &Meanings,
    explains: bool,
) -> Result<(Finding, Places), AllocError>
    requires plan { IsWellFormedPlan known.old }
    requires groups { HasSoundGroups (store_of start.store) }
    requires names { names.now ≡ names_of known.old }
    requires meanings { meanings.now ≡ meanings_of (store_of start.store) known.old }
    ensures found { IfOk result (λ f. IsFound (fixed_from start known.old) known.old (store_of start.store) start.most_views explains f.0) }
    ensures places { IfOk result (λ f. f.1 ≡ start.places) }
    ensures same { known.new ≡ known.old }
{
    if let Some(made) = known.free_as_before(alloc, &start)? {
        let StartView {
            store: _,
            places,
            date: _,
            most_views: _,
        } = start;
        return Ok((free_at(alloc, made), places));
    }
    let finding = find_anew(alloc, known.plan(), &start, names, meanings, explains)?;
    let places = start.places.clone()?;
    remember(alloc, known, start, &finding, explains)?;
    Ok((finding, places))
}

/// What is told of a job that is free and makes no set.
fn free(alloc: Global) -> Finding
    ensures { IsFoundWhereFree [] result }
{
    free_at(alloc, Vec::new(alloc))
}

/// What may become of a job in the store as it sees it, where its sets are placed so and its keys mean this, on a date, with this many views behind a step at
/// most. It is found on a copy of what stands under the job's names; the store is as it was. A job that is free is not looked at again where it starts in the
/// same way. The places are handed back.
pub fn verdict_in(
    alloc: Global,
    store: &SharedStore,
    job: u16,
    known: &mut KnownPlan,
    places: Places,
    meanings: &Meanings,
    date: Day,
    most_views: usize,
    explains: bool,
) -> Result<(Finding, Places), AllocError>
    requires plan { IsWellFormedPlan known.old }
    requires groups { HasSoundGroups (seen job (world_store_of store.now)) }
    requires meanings { meanings.now ≡ meanings_of (seen job (world_store_of store.now)) known.old }
    ensures found { IfOk result (λ f. IsFoundInStore store.now job known.old places date most_views explains f.0) }
    ensures places { IfOk result (λ f. f.1 ≡ places) }
    ensures same { known.new ≡ known.old }
{
    if is_plainly_free(known.plan(), store, job, meanings, most_views) {
        return Ok((free(alloc), places));
    }
    start_fits();
    meanings_are_seen();
    free_is_seen();
    earliest_is_seen();
    first_with_more_is_seen();
    path_is_seen();
    let names = names_of(alloc, known.plan())?;
    let part = part_of(alloc, store, job, names.as_slice())?;
    let start = StartView {
        store: part,
        places,
        date,
        most_views,
    };
    find(alloc, known, start, names.as_slice(), meanings, explains)
}
