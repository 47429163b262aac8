//! What is told of a job before it runs.
ghost use Rattle.std.specs.Prelude.{IfOk};
ghost use Rattle.jcl_meaning.specs.Stores.{store_of};
ghost use Rattle.jcl_meaning.specs.WellFormed.{IsWellFormedPlan};
ghost use Rattle.part_laws.specs.Keeping.{HasSoundGroups};

use crate::case::{Case, Unread};
use crate::places::places_of;
use crate::plain_views::analyse_plainly;
use crate::repeat::with_repeats;
use crate::start::start_of;
use crate::words::push_number;
use jcl_job::job::job_of;
use jcl_meaning::state::Place;
use jcl_plan::day::Day;
use jcl_plan::entry::JobLine;
use jcl_plan::plan::JobPlan;
use jcl_refs::units::UnitNames;
use path_core::analyse::analyse;
use path_core::check::check_path;
use path_core::start::StartView;
use path_search::verdict::{RiskReport, Verdict};
use plain::draft::Draft;
use plain::lent::Lent;
use plain::listed::Listed;
use proc_library::library::ProcLibrary;
use std::alloc::{AllocError, Global};
use value_core::refusal::ReadError;

/// The places where sets may be made, as `1.2.VOL001`.
fn push_places(out: &mut Draft, places: &[Place]) -> Result<(), AllocError> {
    let mut before: &[u8] = b"SAFE ";
    if places.is_empty() {
        out.push(b"SAFE -")?;
    }
    for place in places {
        push_number(out, before, place.step)?;
        push_number(out, b".", place.dd)?;
        out.push(b".")?;
        out.push(place.serial.as_slice())?;
        before = b",";
    }
    out.push(b"\n")
}

/// A line of a job.
fn push_line(out: &mut Draft, line: &JobLine) -> Result<(), AllocError> {
    line.write_to(out)?;
    out.push(b"\n")
}

/// What may become of a job.
fn push_verdict(out: &mut Draft, verdict: Verdict) -> Result<(), AllocError> {
    match verdict {
        Verdict::Safe(places) => push_places(out, places.as_slice()),
        Verdict::Risk(
            RiskReport {
                fault,
                step,
                dd,
                path,
            },
        ) => push_line(
            out,
            &JobLine::Risk {
                fault,
                step,
                dd,
                path: Listed::new(path),
            },
        ),
        Verdict::TooMany { step } => push_line(out, &JobLine::TooMany(step)),
    }
}

/// Whether the paths that are told lead to their faults.
fn push_checks(
    alloc: Global,
    out: &mut Draft,
    plan: &JobPlan,
    start: &StartView,
    reports: &[RiskReport],
) -> Result<(), AllocError> {
    for report in reports {
        if check_path(alloc, plan, start, report)? {
            out.push(b"TAKEN\n")?;
        } else {
            out.push(b"NOT TAKEN\n")?;
        }
    }
    Ok(())
}

/// What may become of a job, in words.
fn told_verdict(alloc: Global, verdict: Verdict) -> Result<Draft, AllocError> {
    let mut told = Draft::empty(alloc);
    push_verdict(&mut told, verdict)?;
    told.keep();
    Ok(told)
}

/// Whether the path of an analysis' own report leads to its fault.
fn is_taken(
    alloc: Global,
    plan: &JobPlan,
    start: &StartView,
    verdict: &Verdict,
) -> Result<bool, AllocError> {
    match verdict {
        Verdict::Risk(report) => check_path(alloc, plan, start, report),
        Verdict::Safe(_) => Ok(true),
        Verdict::TooMany { step: _ } => Ok(true),
    }
}

/// What plain views tell of a job, if it is not this.
fn push_otherwise(
    alloc: Global,
    out: &mut Draft,
    plan: &JobPlan,
    start: &StartView,
    told: &[u8],
) -> Result<(), AllocError>
    requires plan { IsWellFormedPlan plan.now }
    requires groups { HasSoundGroups (store_of start.now.store) }
{
    let verdict = analyse_plainly(alloc, plan, start)?;
    let plain = told_verdict(alloc, verdict)?;
    if plain.kept() != told {
        out.push(b"BY PLAIN VIEWS ")?;
        out.push(plain.kept())?;
    }
    Ok(())
}

/// What may become of a job, whether an analysis' own report is taken, and what plain views tell where that is something else.
fn push_analysis(
    alloc: Global,
    out: &mut Draft,
    plan: &JobPlan,
    start: &StartView,
    only_packed: bool,
) -> Result<(), AllocError>
    requires plan { IsWellFormedPlan plan.now }
    requires groups { HasSoundGroups (store_of start.now.store) }
{
    let verdict = analyse(alloc, plan, start)?;
    let taken = is_taken(alloc, plan, start, &verdict)?;
    let told = told_verdict(alloc, verdict)?;
    out.push(told.kept())?;
    if !taken {
        out.push(b"ITS PATH IS NOT TAKEN\n")?;
    }
    if only_packed {
        return Ok(());
    }
    push_otherwise(alloc, out, plan, start, told.kept())
}

/// The job that a deck denotes.
fn job_denoted(
    alloc: Global,
    units: &UnitNames,
    library: &ProcLibrary,
    deck: &[Lent<'_>],
) -> Result<JobPlan, ReadError>
    ensures { IfOk result IsWellFormedPlan }
{
    job_of(alloc, units, library, deck)
}

/// Tells what may become of a job on the first day of 1970, and of each path that is told with a fault whether it leads there.
fn push_plan(
    alloc: Global,
    out: &mut Draft,
    case: &Case<'_>,
    plan: &JobPlan,
) -> Result<(), AllocError>
    requires plan { IsWellFormedPlan plan.now }
{
    let Some(date) = Day::new(25_567) else {
        return out.push(b"? no day\n");
    };
    let places = places_of(case, plan)?;
    let start = start_of(alloc, case, places, date)?;
    push_analysis(alloc, out, plan, &start, case.only_packed)?;
    push_checks(alloc, out, plan, &start, case.reports.as_slice())
}

/// Tells of the job in whose plan steps of the deck stand as often as the case says.
fn push_repeated(
    alloc: Global,
    out: &mut Draft,
    case: &Case<'_>,
    plan: JobPlan,
) -> Result<(), AllocError>
    requires plan { IsWellFormedPlan plan }
{
    match with_repeats(alloc, plan, case.repeats.as_slice()) {
        Ok(plan) => push_plan(alloc, out, case, &plan),
        Err(Unread::Wrong) => out.push(b"? TIMES\n"),
        Err(Unread::Memory) => Err(AllocError),
    }
}

/// Tells of the job of a case.
pub(crate) fn push_job(alloc: Global, out: &mut Draft, case: &Case<'_>) -> Result<(), AllocError> {
    let library = ProcLibrary::new(alloc);
    match job_denoted(alloc, &case.units, &library, case.deck.as_slice()) {
        Ok(plan) => push_repeated(alloc, out, case, plan),
        Err(ReadError::Refused(_)) => out.push(b"REFUSED\n"),
        Err(ReadError::Memory) => Err(AllocError),
    }
}
