//! A job alone: by its solo meaning, over lists, and over volumes with their tracks.
use crate::case::Case;
use crate::kept::{Known, known_in};
use crate::mounts::shared_of;
use crate::run::{Answers, JOB, Looked, Run, Way, fresh, run_job};
use crate::shown::{tell_free, tell_lines, tell_names, tell_seen};
use crate::terms::Period;
use disp_core::course::Given;
use jcl_meaning::meanings::Meanings;
use jcl_meaning::names::names_of;
use jcl_meaning::program::{SoloProgram, endings};
use jcl_meaning::solo::SoloRun;
use jcl_plan::outcome::Outcome;
use jcl_plan::plan::{DdKind, Expiry, JobPlan, StepPlan};
use kept_requests::requests::{Requests, SharedRequests};
use plain::listed::Listed;
use prog_core::budget::budget_of;
use prog_core::library::ProgramLibrary;
use row_table::told::Told;
use solo_core::{solo, solo_path};
use std::alloc::{AllocError, Global};
use std::mem;
use store_core::alone::Alone;
use store_core::meanings::meanings_of;

/// A step whose DD makes a set that is to be kept so long.
fn keep_for(alloc: Global, step: &mut StepPlan, period: &Period) {
    let mut dds = mem::replace(&mut step.dds, Listed::empty(alloc)).into_vec();
    if let Some(d) = dds.as_mut_slice().get_mut(period.dd.saturating_sub(1)) {
        if let DdKind::Set(set) = &mut d.kind {
            set.expiry = Expiry::DaysFromToday(period.days);
        }
    }
    step.dds = Listed::new(dds);
}

/// Gives a plan the periods for which sets are to be kept, which no card says.
fn set_periods(alloc: Global, plan: &mut JobPlan, periods: &[Period]) {
    let mut steps = mem::replace(&mut plan.steps, Listed::empty(alloc)).into_vec();
    for period in periods {
        if let Some(step) = steps.as_mut_slice().get_mut(period.step.saturating_sub(1)) {
            keep_for(alloc, step, period);
        }
    }
    plan.steps = Listed::new(steps);
}

/// The programs of a case, of which there are none where it is given how steps end.
fn programs_of<'a>(case: &'a Case<'_>) -> &'a [SoloProgram] {
    match &case.terms.path {
        None => case.coded.programs.as_slice(),
        Some(_) => &[],
    }
}

/// The requests of a program, as a library keeps them.
fn requests_of(alloc: Global, program: &SoloProgram) -> Result<SharedRequests, AllocError> {
    let mut requests = Requests::new(alloc);
    for request in program.requests.as_slice() {
        requests.push(*request)?;
    }
    SharedRequests::new(alloc, requests)
}

/// Adds a copy of a program where there is none of its name.
fn add(
    alloc: Global,
    library: &mut ProgramLibrary,
    program: &SoloProgram,
) -> Result<(), AllocError> {
    if library.has(&program.name) {
        return Ok(());
    }
    library.add(program.name, requests_of(alloc, program)?)
}

/// The programs of a case by their names, of which the first of each counts.
fn library_of(alloc: Global, case: &Case<'_>) -> Result<ProgramLibrary, AllocError> {
    let mut library = ProgramLibrary::new(alloc);
    for program in programs_of(case) {
        add(alloc, &mut library, program)?;
    }
    Ok(library)
}

/// The most lines that a job writes, in a program library as the machine has it.
fn budget(alloc: Global, job: &Job<'_>) -> Result<usize, AllocError> {
    let library = library_of(alloc, job.case)?;
    budget_of(job.plan, &library)
}

/// The solo meaning of a job, or along the outcomes that are given.
fn solo_of(alloc: Global, case: &Case<'_>, plan: &JobPlan) -> Result<SoloRun, AllocError> {
    let store = &case.found.store;
    let terms = &case.terms;
    let places = &terms.places;
    match &terms.path {
        None => {
            let programs = case.coded.programs.as_slice();
            solo(
                alloc,
                plan,
                store,
                places,
                programs,
                &terms.answers,
                terms.date,
            )
        }
        Some(path) => solo_path(alloc, plan, store, places, path.as_slice(), terms.date),
    }
}

/// How the steps of a job end.
fn outcomes_of(
    alloc: Global,
    case: &Case<'_>,
    plan: &JobPlan,
) -> Result<Listed<Outcome>, AllocError> {
    match &case.terms.path {
        None => endings(alloc, plan.steps.as_slice(), case.coded.programs.as_slice()),
        Some(path) => Listed::copy_of(alloc, path.as_slice()),
    }
}

/// A job that is to run: its case, its plan, what its keys mean in the store that it finds, how its steps end, and what is looked at.
#[derive(Drop)]
struct Job<'a> {
    case: &'a Case<'a>,
    plan: &'a JobPlan,
    meanings: Meanings,
    outcomes: Listed<Outcome>,
    known: Known,
}

impl Job<'_> {
    fn looked(&self) -> Looked<'_> {
        Looked {
            known: &self.known,
            serials: self.case.found.store.volumes.as_slice(),
        }
    }

    /// The job before its first action.
    fn way(&self, alloc: Global) -> Way<'_> {
        let terms = &self.case.terms;
        Way {
            alloc,
            plan: self.plan,
            programs: programs_of(self.case),
            given: Given {
                job_tests: self.plan.tests.as_slice(),
                volumes: self.case.found.store.volumes.as_slice(),
                places: &terms.places,
                meanings: &self.meanings,
                date: terms.date,
            },
            answers: Answers {
                outcomes: self.outcomes.as_slice(),
                cancels: terms.answers.cancels.as_slice(),
                grants: terms.answers.grants.as_slice(),
            },
            looked: self.looked(),
            course: fresh(alloc),
            changed: false,
            wanting: false,
        }
    }
}

/// The lines of a job alone, and what it leaves.
fn shown_alone(alloc: Global, job: &Job<'_>, solo: SoloRun, told: &mut Told) -> Told {
    let mut shown = Told::new(alloc);
    tell_lines(alloc, &mut shown, solo.lines.as_slice());
    let alone = Alone {
        alloc,
        store: solo.store,
        growth: true,
    };
    let looked = job.looked();
    tell_seen(&mut shown, &alone, looked.known, looked.serials);
    if shown.is_wanting() {
        told.want();
    }
    shown
}

/// The job over lists.
fn run_alone(alloc: Global, job: &Job<'_>, told: &mut Told) -> Option<Run> {
    let store = told.got(job.case.found.store.copy_of(alloc))?;
    let mut alone = Alone {
        alloc,
        store,
        growth: true,
    };
    let mut way = job.way(alloc);
    let run = run_job(&mut way, &mut alone);
    end_way(&way, told);
    Some(run)
}

/// The job over volumes, with the tracks that are free in the end.
fn run_shared(alloc: Global, job: &Job<'_>, free: &mut Told, told: &mut Told) -> Option<Run> {
    let mut shared = shared_of(alloc, &job.case.found, JOB, told)?;
    let mut way = job.way(alloc);
    let run = run_job(&mut way, &mut shared);
    end_way(&way, told);
    tell_free(free, shared.volumes.as_slice());
    Some(run)
}

/// Tells whether an action that wanted memory changed something.
fn end_way(way: &Way<'_>, told: &mut Told) {
    if way.changed {
        told.line(b"CHANGED");
    }
    if way.wanting {
        told.want();
    }
}

/// What the three ways tell: once where it is the same.
fn tell_runs(told: &mut Told, alone: &Told, lists: &Run, volumes: &Run) {
    let (shown, other) = (lists.shown.as_slice(), volumes.shown.as_slice());
    told.word(other);
    if shown != other {
        told.line_of_two(b"OVER LISTS\n", shown);
    }
    if alone.as_slice() != shown.split_at(lists.alone.min(shown.len())).0 {
        told.line_of_two(b"ALONE\n", alone.as_slice());
    }
}

/// What is known of a job from its plan: its budget, and the names that it holds.
fn tell_plan(alloc: Global, told: &mut Told, job: &Job<'_>) {
    if let Some(budget) = told.got(budget(alloc, job)) {
        told.numbered_line(b"BUDGET ", budget as u64);
    }
    if let Some(names) = told.got(names_of(alloc, job.plan)) {
        tell_names(told, names.as_slice());
    }
}

/// Runs a job in three ways, and tells what came.
fn tell_ways(alloc: Global, told: &mut Told, job: &Job<'_>, solo: SoloRun) {
    let clean = solo.clean;
    let mut free = Told::new(alloc);
    let alone = shown_alone(alloc, job, solo, told);
    let Some(lists) = run_alone(alloc, job, told) else {
        return;
    };
    let Some(volumes) = run_shared(alloc, job, &mut free, told) else {
        return told.line(b"UNMOUNTED");
    };
    tell_runs(told, &alone, &lists, &volumes);
    told.append(&free);
    if clean {
        told.line(b"CLEAN");
    }
}

/// Tells of a job what it writes and leaves, the tracks that are free then, whether it met no fault, the most lines that it writes, and
/// the names that it holds.
pub(crate) fn tell_job(alloc: Global, told: &mut Told, case: &Case<'_>, plan: JobPlan) {
    let mut plan = plan;
    set_periods(alloc, &mut plan, case.terms.periods.as_slice());
    let solo = told.got(solo_of(alloc, case, &plan));
    let meanings = told.got(meanings_of(alloc, &plan, &case.found.store));
    let outcomes = told.got(outcomes_of(alloc, case, &plan));
    let (Some(solo), Some(meanings), Some(outcomes)) = (solo, meanings, outcomes) else {
        return;
    };
    let store = &case.found.store;
    let known = known_in(alloc, store, meanings.as_slice(), &solo.store, told);
    let job = Job {
        case,
        plan: &plan,
        meanings,
        outcomes,
        known,
    };
    tell_ways(alloc, told, &job, solo);
    tell_plan(alloc, told, &job);
}
