//! Jobs that only keep sets which are there, if they name any, and have no test: of them nothing has to be looked for.
ghost use Rattle.std.specs.Prelude.{◌≡◌, []};
ghost use Rattle.std.specs.Bool.{OnTrue};
ghost use Rattle.jcl_meaning.specs.States.{Fixed};
ghost use Rattle.jcl_meaning.specs.Takes.{releases};
ghost use Rattle.path_core.specs.KeptSets.{AtMostKeeps, IsAtMostKept, IsKept, IsNameThatStands, Stands, StepAtMostKeeps, is_new, keeps, keeps_after_abend};
ghost use Rattle.path_core.specs.Untested.{HasNoTests};
ghost use Rattle.path_meaning.specs.Verdicts.{IsFree};

use jcl_meaning::meanings::Meanings;
use jcl_meaning::state::Resolution;
use jcl_plan::plan::{
    ConditionalWord, DdKind, JobPlan, SetPlan, Space, Status, StepPlan, VolumePlan, Word,
};
use jname_core::ds_name::DsName;
use jname_core::key::Key;
use path_laws::are_few;
use store_core::job_store::JobStore;

fn is_new(status: Status) -> bool
    ensures { result ≡ is_new status }
{
    match status {
        Status::New => true,
        Status::Old => false,
        Status::Shr => false,
        Status::Mod => false,
    }
}

fn keeps(normal: Option<Word>) -> bool
    ensures { result ≡ keeps normal }
{
    match normal {
        None => true,
        Some(Word::Keep) => true,
        Some(_) => false,
    }
}

fn keeps_after_abend(conditional: Option<ConditionalWord>) -> bool
    ensures { result ≡ keeps_after_abend conditional }
{
    match conditional {
        None => true,
        Some(ConditionalWord::Keep) => true,
        Some(_) => false,
    }
}

fn releases(space: &Option<Space>) -> bool
    ensures { result ≡ releases space.now }
{
    match space {
        Some(space) => space.release,
        None => false,
    }
}

/// The set of a name stands where the catalog has it.
fn stands<S: JobStore>(store: &S, job: u16, name: &DsName) -> bool
    ensures { OnTrue result (Stands (S.seen job store.now) name.now) }
{
    match store.volume(job, name) {
        Some(serial) => store.set(job, &Key::Named(*name), serial).is_some(),
        None => false,
    }
}

/// What a key means is a name whose set stands.
fn means_one_that_stands<S: JobStore>(store: &S, job: u16, means: &Resolution) -> bool
    ensures { OnTrue result (IsNameThatStands (S.seen job store.now) means.now) }
{
    match means {
        Resolution::Means(Key::Named(name)) => stands(store, job, name),
        _ => false,
    }
}

fn is_kept<S: JobStore>(
    store: &S,
    job: u16,
    meanings: &Meanings,
    step: usize,
    dd: usize,
    p: &SetPlan,
) -> bool
    ensures { OnTrue result (IsKept meanings.now (S.seen job store.now) step dd p.now) }
{
    let VolumePlan::NotCoded = p.volume else {
        return false;
    };
    !is_new(p.status)
        && !releases(&p.space)
        && keeps(p.normal)
        && keeps_after_abend(p.conditional)
        && means_one_that_stands(store, job, &meanings.at(step, dd))
}

fn is_at_most_kept<S: JobStore>(
    store: &S,
    job: u16,
    meanings: &Meanings,
    step: usize,
    dd: usize,
    kind: &DdKind,
) -> bool
    ensures { OnTrue result (IsAtMostKept meanings.now (S.seen job store.now) step dd kind.now) }
{
    match kind {
        DdKind::Sysout(_) => true,
        DdKind::Dummy => true,
        DdKind::Cards(_) => true,
        DdKind::Set(p) => is_kept(store, job, meanings, step, dd, p),
    }
}

fn step_at_most_keeps<S: JobStore>(
    store: &S,
    job: u16,
    meanings: &Meanings,
    n: usize,
    step: &StepPlan,
) -> bool
    ensures { OnTrue result (StepAtMostKeeps meanings.now (S.seen job store.now) n step.now.dds) }
{
    for (i, dd) in step.dds.as_slice().iter().enumerate() {
        if !is_at_most_kept(store, job, meanings, n, i + 1, &dd.kind) {
            return false;
        }
    }
    true
}

fn at_most_keeps<S: JobStore>(store: &S, job: u16, meanings: &Meanings, plan: &JobPlan) -> bool
    ensures { OnTrue result (AtMostKeeps meanings.now (S.seen job store.now) plan.now) }
{
    for (i, step) in plan.steps.as_slice().iter().enumerate() {
        if !step_at_most_keeps(store, job, meanings, i + 1, step) {
            return false;
        }
    }
    true
}

fn has_no_tests(plan: &JobPlan) -> bool
    ensures { OnTrue result (HasNoTests plan.now) }
{
    if !plan.tests.is_empty() {
        return false;
    }
    for step in plan.steps.as_slice() {
        if !step.tests.is_empty() {
            return false;
        }
    }
    true
}

/// Whether a job is free without more ado, where its keys mean this: it has no test, and each of its DDs is for no set, or for one that the catalog has, that is
/// there, and that is kept however the step ends. So it meets no fault, makes no set, and has no more than two views behind a step, one of them after an ABEND.
/// Other jobs may be free too.
pub fn is_plainly_free<S: JobStore>(
    plan: &JobPlan,
    store: &S,
    job: u16,
    meanings: &Meanings,
    most_views: usize,
) -> bool
    ensures { OnTrue result ((fixed : Fixed) → fixed.meanings ≡ meanings.now → IsFree fixed plan.now (S.seen job store.now) most_views []) }
{
    are_few();
    if most_views < 2 {
        return false;
    }
    has_no_tests(plan) && at_most_keeps(store, job, meanings, plan)
}
