//! A job is admitted: ASSURED, RISK, TOOMANY, WAIT SPACE. (This profile)
ghost use Rattle.std.specs.Prelude.{◌≡◌, ◌++◌, ◌∷◌, [], IfErr, IfOk, IfSome, None, Ok, OnErr, OnOk};
ghost use Rattle.jcl_plan.specs.declared.entry.JobLine.TheVariants as line;
ghost use Rattle.jcl_meaning.specs.WellFormed.{IsWellFormedPlan};
ghost use Rattle.part_laws.specs.Keeping.{HasSoundGroups};
ghost use Rattle.place_core.specs.Keepings.{AreApart, KeepsAll, kept_in};
ghost use Rattle.place_core.specs.Placings.{NothingKeptFor};
ghost use Rattle.shared_core.specs.Shown.{world_store_of};
ghost use Rattle.shared_core.specs.Tracks.{ConservesTracks};
ghost use Rattle.world_meaning.specs.Lenses.{seen};
ghost use Rattle.admit_core.specs.Admissions.{line_of};
ghost use Rattle.admit_core.specs.Admitted.{IsAnswered, IsAssurance, admission_of, line_assured};

use crate::admission::{Admission, Answer, AssuredJob, NamedJob, Provision, RiskyJob};
use jcl_meaning::state::Place;
use jcl_plan::day::Day;
use jcl_plan::entry::JobLine;
use jcl_plan::plan::JobPlan;
use jname_core::serial::Serial;
use path_laws::made_is_configured;
use path_search::verdict::{RiskReport, Verdict};
use place_core::keep::keep_all;
use plain::listed::Listed;
use prog_core::budget::budget_of;
use prog_core::library::ProgramLibrary;
use shared_core::laws::tracks_are_conserved;
use shared_core::store::SharedStore;
use shared_core::sums::volumes_add_up;
use std::alloc::{AllocError, Global};
use verdict_core::judge::{Judged, judge};
use verdict_core::tracks::tracks_asked;
use verdict_core::verdict::Finding;

/// By what all jobs are admitted: the volumes of each unit name, the programs, the limit of views, and whether a risk's path is shown.
#[derive(Clone, Copy)]
pub struct Terms<'c> {
    pub units: &'c [Listed<Serial>],
    pub programs: &'c ProgramLibrary,
    pub most_views: usize,
    pub explains: bool,
}

/// What comes of a job that meets no fault: it is assured, with so many tracks kept and so many lines at most, or this volume has no room.
#[derive(Clone, Copy)]
enum Assurance {
    Given { tracks: usize, actions: usize },
    Refused(Serial),
}

/// Keeps the primary of each of these places for a job, in their order, and tells the volume of the first that has no room; then, as on an `Err`, nothing
/// changes.
fn keep(
    alloc: Global,
    store: &mut SharedStore,
    number: u16,
    plan: &JobPlan,
    made: &[Place],
) -> Result<Option<Serial>, AllocError>
    requires none { NothingKeptFor number store.old }
    requires apart { AreApart made.now }
    ensures refused { IfOk result (λ serial. serial ≡ (kept_in number plan.now made.now store.old.volumes).refused) }
    ensures kept { result ≡ Ok None → KeepsAll number plan.now made.now store.old store.new × ConservesTracks store.old store.new }
    ensures back { IfOk result (λ serial. IfSome serial (λ _. store.new ≡ store.old)) }
    ensures err { OnErr result (store.new ≡ store.old) }
{
    tracks_are_conserved();
    volumes_add_up(&*store);
    let done = keep_all(alloc, store, number, plan, made);
    volumes_add_up(&*store);
    done
}

/// Assures a job that meets no fault, and may make sets at these places: ASSURED where their primaries are kept, else WAIT SPACE. The line goes behind its
/// listing. An `Err` changes nothing.
fn assure(
    alloc: Global,
    store: &mut SharedStore,
    programs: &ProgramLibrary,
    number: u16,
    plan: &JobPlan,
    made: &[Place],
    listing: &mut Listed<JobLine>,
) -> Result<Assurance, AllocError>
    requires none { NothingKeptFor number store.old }
    requires apart { AreApart made.now }
    ensures ok { IfOk result (IsAssurance store.old programs.now number plan.now made.now store.new) }
    ensures told { IfOk result (λ assurance. listing.new ≡ listing.old ++ line_assured assurance ∷ []) }
    ensures err { OnErr result ((store.new ≡ store.old) × (listing.new ≡ listing.old)) }
{
    let tracks = tracks_asked(plan, made)?;
    let actions = budget_of(plan, programs)?;
    let last = listing.len();
    listing.push(JobLine::Assured { tracks, actions })?;
    match keep(alloc, store, number, plan, made) {
        Ok(None) => Ok(Assurance::Given { tracks, actions }),
        Ok(Some(serial)) => {
            listing.replace(last, JobLine::WaitSpace(serial));
            Ok(Assurance::Refused(serial))
        }
        Err(_) => {
            listing.remove(last);
            Err(AllocError)
        }
    }
}

/// A job that waits no more: what was found of it is let go.
fn answered(mut job: NamedJob) -> NamedJob
    ensures { result ≡ job }
{
    job.plan.forget();
    job
}

fn admission_of(job: NamedJob, given: Provision, assurance: Assurance) -> Admission
    ensures { result ≡ admission_of job given assurance }
{
    match assurance {
        Assurance::Given { tracks, actions } => Admission::Assured(AssuredJob {
            named: answered(job),
            given,
            tracks,
            actions,
        }),
        Assurance::Refused(serial) => Admission::SpaceWait(job, serial),
    }
}

/// Writes RISK behind a listing. An `Err` changes nothing.
fn tell_risk(
    alloc: Global,
    report: &RiskReport,
    listing: &mut Listed<JobLine>,
) -> Result<(), AllocError>
    ensures ok { OnOk result (listing.new ≡ listing.old ++ line.Risk report.now.fault report.now.step report.now.dd report.now.path.items ∷ []) }
    ensures err { OnErr result (listing.new ≡ listing.old) }
{
    let path = Listed::copy_of(alloc, report.path.as_slice())?;
    listing.push(JobLine::Risk {
        fault: report.fault,
        step: report.step,
        dd: report.dd,
        path,
    })?;
    Ok(())
}

/// Admits a job whose names are held, on a date: places its sets, finds what may become of it so, and keeps the primary of each set that some path makes.
/// The line of what is answered goes behind its listing. Nothing is kept unless the job is ASSURED. Where memory is missing the job is given back, and
/// nothing has changed.
pub fn admit(
    alloc: Global,
    store: &mut SharedStore,
    terms: &Terms<'_>,
    number: u16,
    mut job: NamedJob,
    date: Day,
    listing: &mut Listed<JobLine>,
) -> Result<Answer, NamedJob>
    requires its_own { job.held ≡ number }
    requires none { NothingKeptFor number store.old }
    requires plan { IsWellFormedPlan job.plan }
    requires groups { HasSoundGroups (seen number (world_store_of store.old)) }
    ensures ok { IfOk result (IsAnswered store.old terms.now number job date store.new) }
    ensures told { IfOk result (λ answer. listing.new ≡ listing.old ++ line_of answer.admission ∷ []) }
    ensures back { IfErr result (λ back. back ≡ job) }
    ensures err { OnErr result ((store.new ≡ store.old) × (listing.new ≡ listing.old)) }
{
    made_is_configured();
    let Ok(
        Judged {
            places,
            meanings,
            finding,
        },
    ) = judge(
        alloc,
        store,
        number,
        &mut job.plan,
        terms.units,
        date,
        terms.most_views,
        terms.explains,
    )
    else {
        return Err(job);
    };
    let Finding { verdict, path } = finding;
    let given = Provision {
        places,
        meanings,
        date,
    };
    match verdict {
        Verdict::Safe(made) => match assure(
            alloc,
            store,
            terms.programs,
            number,
            job.plan(),
            made.as_slice(),
            listing,
        ) {
            Ok(assurance) => Ok(Answer {
                admission: admission_of(job, given, assurance),
                path,
            }),
            Err(_) => Err(job),
        },
        Verdict::Risk(report) => match tell_risk(alloc, &report, listing) {
            Ok(()) => {
                let named = answered(job);
                Ok(Answer {
                    admission: Admission::Risky(RiskyJob { named, given }, report),
                    path,
                })
            }
            Err(_) => Err(job),
        },
        Verdict::TooMany { step } => match listing.push(JobLine::TooMany(step)) {
            Ok(()) => {
                let named = answered(job);
                Ok(Answer {
                    admission: Admission::TooMany(RiskyJob { named, given }, step),
                    path,
                })
            }
            Err(_) => Err(job),
        },
    }
}
