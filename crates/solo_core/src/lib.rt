//! A job alone, carried out: the plain runners, by its programs or along given outcomes.
#![tactic(auto)]

pub mod path;
mod runner;
mod steps;

ghost use Rattle.std.specs.Prelude.{IfOk, true};
ghost use Rattle.jcl_meaning.specs.Solo.{IsSoloRun, fixed_alone, run, solo_path_of};
ghost use Rattle.jcl_meaning.specs.Stores.{store_of};
ghost use Rattle.solo_core.specs.PathRuns.{IsPathRun, ran_alone, solo_in};

use crate::path::{PathRun, faults_in};
use crate::runner::Runner;
use disp_core::course::{Course, Given};
use jcl_meaning::places::Places;
use jcl_meaning::program::{SoloProgram, endings};
use jcl_meaning::solo::{SoloAnswers, SoloRun};
use jcl_meaning::state::nothing_own;
use jcl_meaning::store::SoloStore;
use jcl_plan::day::Day;
use jcl_plan::outcome::Outcome;
use jcl_plan::plan::JobPlan;
use plain::listed::Listed;
use std::alloc::{AllocError, Global};
use store_core::alone::Alone;
use store_core::meanings::meanings_of;

/// A job alone, with these programs and answers, of which each list is used up in order.
fn run<'a>(
    alloc: Global,
    plan: &'a JobPlan,
    store: &'a SoloStore,
    places: &'a Places,
    programs: &[SoloProgram],
    outcomes: &'a [Outcome],
    cancels: &'a [Option<u32>],
    grants: &'a [bool],
    date: Day,
) -> Result<PathRun, AllocError>
    ensures { IfOk result (λ r. IsPathRun r store.now (ran_alone store.now plan.now places.now date programs.now outcomes.now cancels.now grants.now)) }
{
    let meanings = meanings_of(alloc, plan, store)?;
    let mut runner = Runner {
        alloc,
        given: Given {
            job_tests: plan.tests.as_slice(),
            volumes: store.volumes.as_slice(),
            places,
            meanings: &meanings,
            date,
        },
        outcomes,
        cancels,
        grants,
        store: Alone {
            alloc,
            store: store.copy_of(alloc)?,
            growth: true,
        },
        course: Course {
            own: nothing_own(alloc),
            lines: Listed::empty(alloc),
        },
        meets: Listed::empty(alloc),
    };
    runner.run_agenda(plan, programs)?;
    let faults = faults_in(alloc, runner.meets.as_slice())?;
    let clean = faults.as_slice().is_empty();
    let course = runner.course;
    let alone = runner.store;
    let run = SoloRun {
        lines: course.lines,
        store: alone.store,
        clean,
    };
    Ok(PathRun { run, faults })
}

/// The solo meaning of a job: the lines that it writes alone, after its admission, in this store, with these places for its sets to be
/// made, these programs, answers and date.
pub fn solo(
    alloc: Global,
    plan: &JobPlan,
    store: &SoloStore,
    places: &Places,
    programs: &[SoloProgram],
    answers: &SoloAnswers,
    date: Day,
) -> Result<SoloRun, AllocError>
    ensures { IfOk result (λ r. IsSoloRun r store.now (solo_in store.now plan.now places.now date programs.now answers.now)) }
{
    let outcomes = endings(alloc, plan.steps.as_slice(), programs)?;
    let run = run(
        alloc,
        plan,
        store,
        places,
        programs,
        outcomes.as_slice(),
        answers.cancels.as_slice(),
        answers.grants.as_slice(),
        date,
    )?;
    Ok(run.run)
}

/// The solo meaning of a job along given outcomes, as [`solo_path`], and the faults that it meets, each with its place among all that the job may do.
pub fn path_run(
    alloc: Global,
    plan: &JobPlan,
    store: &SoloStore,
    places: &Places,
    outcomes: &[Outcome],
    date: Day,
) -> Result<PathRun, AllocError>
    ensures { IfOk result (λ r. IsPathRun r store.now
        (solo_path_of (fixed_alone store.now plan.now places.now date) plan.now (store_of store.now) outcomes.now)) }
{
    run(alloc, plan, store, places, &[], outcomes, &[], &[], date)
}

/// The solo meaning of a job along given outcomes, one a step: those of steps that do not run are not looked at, and a step past the end of
/// the list ends with code 0.
pub fn solo_path(
    alloc: Global,
    plan: &JobPlan,
    store: &SoloStore,
    places: &Places,
    outcomes: &[Outcome],
    date: Day,
) -> Result<SoloRun, AllocError>
    ensures { IfOk result (λ r. IsSoloRun r store.now
        (solo_path_of (fixed_alone store.now plan.now places.now date) plan.now (store_of store.now) outcomes.now)) }
{
    let path = path_run(alloc, plan, store, places, outcomes, date)?;
    Ok(path.run)
}
