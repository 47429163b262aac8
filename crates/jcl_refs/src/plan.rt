//! The plan of a job. (This profile)
ghost use Rattle.std.specs.Prelude.{◌≡◌, ◌+◌, ◌≤◌, [], List, length, map, nat_lt, slice_get, IfOk, IfSome, OnOk, Some, count_by, true};
ghost use Rattle.std.specs.Bool.{OnTrue};
ghost use Rattle.std.specs.List.{All, flat_map};
ghost use Rattle.value_core.specs.Reads.{Gives};
ghost use Rattle.jcl_plan.specs.declared.fault.Cause.TheVariants.{P};
ghost use Rattle.jcl_meaning.specs.Names.{dd_names, names_of, wanted_by};
ghost use Rattle.jcl_procs.specs.declared.step.FlatStep.{FlatStep};
ghost use Rattle.jcl_procs.specs.Counting.{up_to};
ghost use Rattle.jcl_refs.specs.Plans.{job_with, kinds_in, most_names, most_steps, plan_of, with_dds_left};
ghost use Rattle.jcl_refs.specs.Early.{AreTaken, IsEarly, many_refusal, settled_behind, settled_first};
ghost use Rattle.jcl_refs.specs.Planning.{counts_in, has_many_dd_names, job_by, looks_for_later, plan_with, planned_counts, step_by, steps_by, with_units};

use crate::kinds::planned_dds;
use crate::later_dds::{dds_left, looks_for_later};
use crate::placing::placed;
use crate::tests_of::{job_tests, tests_of};
use crate::units::UnitNames;
use jcl_cards::job::JobCard;
use jcl_dds::dd::DdCard;
use jcl_meaning::names::{is_temporary, names_of};
use jcl_plan::fault::{Cause, StatementFault};
use jcl_plan::plan::{
    DdKind, DdPlan, JobPlan, MOST_DDS, MOST_NAMES, MOST_STEPS, StepPlan, VolumePlan,
};
use jcl_procs::expansion::Expansion;
use jcl_procs::step::FlatStep;
use plain::listed::Listed;
use std::alloc::{AllocError, Global};
use std::mem::replace;
use value_core::refusal::ReadError;

/// The most DDs of a step that look for a later one. (DDNAME parameter)
const MOST_DD_NAMES: usize = 5;

fn refusal(fault: StatementFault) -> ReadError
    ensures { result ≡ ReadError.Refused (P fault) }
{
    ReadError::Refused(Cause::P(fault))
}

/// How many DDs look for a later one.
fn count_dd_names(dds: &[DdCard]) -> usize
    ensures { result ≡ count_by looks_for_later dds.now }
{
    dds.iter().filter(|dd| looks_for_later(*dd)).count()
}

/// Whether a step, as it stands, has too many DDs that look for a later one.
fn has_many_dd_names(step: &FlatStep) -> bool
    ensures { result ≡ has_many_dd_names step.now }
{
    count_dd_names(step.dds.as_slice()) > MOST_DD_NAMES
}

/// The same of each step.
fn many_dd_names(alloc: Global, steps: &[FlatStep]) -> Result<Vec<bool>, AllocError>
    ensures { IfOk result (λ many. many.items ≡ map has_many_dd_names steps.now) }
{
    let mut many = Vec::new(alloc);
    for step in steps {
        many.push(has_many_dd_names(step))?;
    }
    Ok(many)
}

/// The DDs that are left stand in the place of those of a step.
fn leave_dds(alloc: Global, step: &mut FlatStep) -> Result<(), AllocError>
    ensures { OnOk result (step.new ≡ with_dds_left step.old) }
{
    let dds = replace(&mut step.dds, Listed::empty(alloc));
    step.dds = dds_left(alloc, dds)?;
    Ok(())
}

fn leave_each(alloc: Global, steps: &mut [FlatStep]) -> Result<(), AllocError>
    ensures { OnOk result (steps.new ≡ map with_dds_left steps.old) }
{
    for step in steps.iter_mut() {
        leave_dds(alloc, step)?;
    }
    Ok(())
}

/// The steps with the DDs that are left of each.
fn steps_left(alloc: Global, steps: Listed<FlatStep>) -> Result<Listed<FlatStep>, AllocError>
    ensures { IfOk result (λ left. left ≡ map with_dds_left steps) }
{
    let mut steps = steps.into_vec();
    leave_each(alloc, steps.as_mut_slice())?;
    Ok(Listed::new(steps))
}

/// The k-th step, of which is known whether it has too many DDs that look for a later one.
fn planned_step(
    alloc: Global,
    steps: &[FlatStep],
    k: usize,
    done: &[StepPlan],
    many_dd_names: bool,
    step: &FlatStep,
) -> Result<StepPlan, ReadError>
    requires few_steps { length steps.now ≤ MOST_STEPS }
    requires k { k ≤ MOST_STEPS }
    requires few_done { length done.now ≤ MOST_STEPS }
    requires few_in_each { All (λ s. length s.dds ≤ MOST_DDS) done.now }
    ensures gives { Gives result (step_by steps.now k (map kinds_in done.now) many_dd_names step.now) }
    ensures count { IfOk result (λ plan. length plan.dds ≡ length step.now.dds) }
    ensures few { IfOk result (λ plan. length plan.dds ≤ MOST_DDS) }
{
    let tests = tests_of(step.call, k, steps, &step.condition.tests)?;
    if many_dd_names {
        return Err(refusal(StatementFault::TooManyDdNames));
    }
    if step.dds.len() > MOST_DDS {
        return Err(refusal(StatementFault::TooManyDds));
    }
    let dds = planned_dds(alloc, steps, step.call, k, done, step.dds.as_slice())?;
    Ok(StepPlan {
        name: step.name,
        procedure_step: step.procedure_step,
        program: step.program,
        after_abend: step.condition.after_abend,
        tests,
        dds,
    })
}

/// The steps one after another.
fn planned_steps(
    alloc: Global,
    left: &[FlatStep],
    many_dd_names: &[bool],
) -> Result<Listed<StepPlan>, ReadError>
    requires few { length left.now ≤ MOST_STEPS }
    requires as_many { length many_dd_names.now ≡ length left.now }
    ensures gives { Gives result (steps_by left.now 1 [] many_dd_names.now left.now) }
    ensures counts { IfOk result (λ steps. counts_in left.now ≡ planned_counts steps) }
{
    let mut done = Listed::empty(alloc);
    for (n, step) in left.iter().enumerate() {
        let plan = planned_step(alloc, left, n + 1, done.as_slice(), many_dd_names[n], step)?;
        done.push(plan)?;
    }
    Ok(done)
}

/// The plan of a job, before units of sets are told.
fn job_with(job: JobCard, steps: Listed<StepPlan>) -> JobPlan
    ensures { result ≡ job_with job steps }
{
    let tests = job_tests(&job.tests);
    JobPlan {
        name: job.name,
        class: job.class,
        priority: job.priority,
        message_class: job.message_class,
        tests,
        steps,
    }
}

/// How many names a DD asks for.
fn count_names(dd: &DdPlan) -> usize
    ensures { result ≡ length (dd_names dd.now.kind) }
{
    let DdKind::Set(set) = &dd.kind else {
        return 0;
    };
    let own = if is_temporary(&set.key) { 0 } else { 1 };
    let of_volume = match &set.volume {
        VolumePlan::OfName(_) => 1,
        _ => 0,
    };
    own + of_volume
}

/// How many of so many names are left behind those that DDs ask for. `None` where these ask for more.
fn names_left(left: usize, dds: &[DdPlan]) -> Option<usize>
    ensures { IfSome result (λ n. n + length (flat_map (λ dd. dd_names dd.kind) dds.now) ≡ left) }
{
    let mut left = left;
    for dd in dds {
        left = left.checked_sub(count_names(dd))?;
    }
    Some(left)
}

/// Whether the DDs of a job ask for no more names than it may hold, each counted as often as it is asked for.
fn asks_for_few(plan: &JobPlan) -> bool
    ensures { result ≡ true → length (wanted_by plan.now.steps) ≤ most_names }
{
    let mut left = MOST_NAMES;
    for step in plan.steps.as_slice() {
        match names_left(left, step.dds.as_slice()) {
            Some(behind) => left = behind,
            None => return false,
        }
    }
    true
}

/// Whether a job holds too many names. They are made only where its DDs ask for so many.
fn holds_many(alloc: Global, plan: &JobPlan) -> Result<bool, AllocError>
    ensures { IfOk result (λ many. many ≡ nat_lt most_names (length (names_of plan.now))) }
{
    if asks_for_few(plan) {
        return Ok(false);
    }
    let names = names_of(alloc, plan)?;
    Ok(names.len() > MOST_NAMES)
}

/// A plan with the units of sets.
fn with_units(
    alloc: Global,
    units: &UnitNames,
    left: &[FlatStep],
    plan: JobPlan,
) -> Result<JobPlan, Cause>
    requires { counts_in left.now ≡ planned_counts plan.steps }
    ensures { result ≡ with_units units.now left.now plan }
{
    let mut plan = plan;
    let steps = replace(&mut plan.steps, Listed::empty(alloc));
    plan.steps = placed(alloc, units, left, steps)?;
    Ok(plan)
}

/// The plan of a job, before units of sets are told, or the first refusal.
fn job_by(
    alloc: Global,
    job: JobCard,
    left: &[FlatStep],
    many_dd_names: &[bool],
) -> Result<JobPlan, ReadError>
    requires few { length left.now ≤ MOST_STEPS }
    requires as_many { length many_dd_names.now ≡ length left.now }
    ensures gives { Gives result (job_by job left.now many_dd_names.now) }
    ensures counts { IfOk result (λ plan. counts_in left.now ≡ planned_counts plan.steps) }
{
    let steps = planned_steps(alloc, left, many_dd_names)?;
    let plan = job_with(job, steps);
    if holds_many(alloc, &plan)? {
        return Err(refusal(StatementFault::TooManyNames));
    }
    Ok(plan)
}

/// The plan of a job with these steps left.
fn plan_with(
    alloc: Global,
    units: &UnitNames,
    job: JobCard,
    left: &[FlatStep],
    many_dd_names: &[bool],
) -> Result<JobPlan, ReadError>
    requires few { length left.now ≤ MOST_STEPS }
    requires as_many { length many_dd_names.now ≡ length left.now }
    ensures { Gives result (plan_with units.now job left.now many_dd_names.now) }
{
    let plan = job_by(alloc, job, left, many_dd_names)?;
    let plan = with_units(alloc, units, left, plan)?;
    Ok(plan)
}

/// The place of the first step with too many DDs that look for a later one, from 0.
fn first_many(many: &[bool]) -> Option<usize>
    ensures { IfSome result (λ n. slice_get many.now n ≡ Some true) }
{
    for n in 0..many.len() {
        if many[n] {
            return Some(n);
        }
    }
    None
}

/// Settles the DDs of the first steps.
fn leave_first(alloc: Global, steps: &mut [FlatStep], count: usize) -> Result<(), AllocError>
    requires { count ≤ length steps.old }
    ensures { OnOk result (steps.new ≡ settled_first count steps.old) }
{
    leave_each(alloc, &mut steps[..count])
}

/// Settles the DDs of the steps behind the first ones.
fn leave_others(alloc: Global, steps: &mut [FlatStep], count: usize) -> Result<(), AllocError>
    requires { count ≤ length steps.old }
    ensures { OnOk result (steps.new ≡ settled_behind count steps.old) }
{
    leave_each(alloc, &mut steps[count..])
}

/// The refusal of a step with too many DDs that look for a later one: by its tests, or for these DDs.
fn many_refusal(front: &[FlatStep], step: &FlatStep) -> Cause
    requires { length front.now ≤ MOST_STEPS }
    ensures { result ≡ many_refusal front.now step.now }
{
    match tests_of(step.call, front.len() + 1, front, &step.condition.tests) {
        Ok(_) => Cause::P(StatementFault::TooManyDdNames),
        Err(cause) => cause,
    }
}

/// Whether none of these steps is refused.
fn are_taken(alloc: Global, steps: &[FlatStep], many: &[bool]) -> Result<bool, AllocError>
    requires few { length steps.now ≤ MOST_STEPS }
    requires as_many { length many.now ≡ length steps.now }
    ensures { IfOk result (λ taken. OnTrue taken (AreTaken steps.now many.now)) }
{
    match planned_steps(alloc, steps, many) {
        Ok(_) => Ok(true),
        Err(ReadError::Refused(_)) => Ok(false),
        Err(ReadError::Memory) => Err(AllocError),
    }
}

/// The refusal of a job in which the first step with too many DDs that look for a later one stands behind so many steps, where none of these is
/// refused. Their DDs are settled, those of the others are not.
fn early_refusal(
    alloc: Global,
    steps: &[FlatStep],
    many: &[bool],
    count: usize,
) -> Result<Option<Cause>, AllocError>
    requires few { length steps.now ≤ MOST_STEPS }
    requires as_many { length many.now ≡ length steps.now }
    requires first { slice_get many.now count ≡ Some true }
    ensures { IfOk result (λ found. IfSome found (IsEarly steps.now many.now count)) }
{
    let (front, behind) = steps.split_at(count);
    let (before, _) = many.split_at(count);
    let Some((step, _)) = behind.split_first() else {
        return Ok(None);
    };
    if !are_taken(alloc, front, before)? {
        return Ok(None);
    }
    Ok(Some(many_refusal(front, step)))
}

/// The refusal of a job in which a step has too many DDs that look for a later one; so many stand before the first. Its DDs are settled only where
/// a step before it is refused.
fn refused_plan(
    alloc: Global,
    units: &UnitNames,
    job: JobCard,
    steps: &mut [FlatStep],
    many: &[bool],
    count: usize,
) -> Result<JobPlan, ReadError>
    requires few { length steps.old ≤ MOST_STEPS }
    requires many { many.now ≡ map has_many_dd_names steps.old }
    requires first { slice_get many.now count ≡ Some true }
    ensures { Gives result (plan_of units.now job steps.old) }
{
    leave_first(alloc, steps, count)?;
    if let Some(cause) = early_refusal(alloc, steps, many, count)? {
        return Err(ReadError::Refused(cause));
    }
    leave_others(alloc, steps, count)?;
    plan_with(alloc, units, job, steps, many)
}

/// The plan of a job whose steps are these, or the first refusal.
fn plan_of_steps(
    alloc: Global,
    units: &UnitNames,
    job: JobCard,
    steps: Listed<FlatStep>,
) -> Result<JobPlan, ReadError>
    ensures { Gives result (plan_of units.now job steps) }
{
    if steps.len() > MOST_STEPS {
        return Err(refusal(StatementFault::TooManySteps));
    }
    let many = many_dd_names(alloc, steps.as_slice())?;
    if let Some(count) = first_many(many.as_slice()) {
        let mut steps = steps.into_vec();
        return refused_plan(
            alloc,
            units,
            job,
            steps.as_mut_slice(),
            many.as_slice(),
            count,
        );
    }
    let left = steps_left(alloc, steps)?;
    plan_with(alloc, units, job, left.as_slice(), many.as_slice())
}

/// The plan of a job whose steps these are, up to the most that it may have, or the first refusal.
pub fn plan_of(
    alloc: Global,
    units: &UnitNames,
    job: JobCard,
    expansion: Expansion,
) -> Result<JobPlan, ReadError>
    ensures { (steps : List FlatStep) → expansion ≡ up_to most_steps steps → Gives result (plan_of units.now job steps) }
{
    match expansion {
        Expansion::Steps(steps) => plan_of_steps(alloc, units, job, steps),
        Expansion::TooMany => Err(refusal(StatementFault::TooManySteps)),
    }
}
