//! The budget of a job. (This profile)
ghost use Rattle.std.specs.Prelude.{◌≡◌, ◌+◌, ◌^◌, ◌≤◌, IfOk, OnErr, sum_by};
ghost use Rattle.jcl_meaning.specs.Agendas.{budget_of, passing, step_budget};

use crate::library::ProgramLibrary;
use jcl_meaning::words::passes;
use jcl_plan::plan::{JobPlan, StepPlan};
use std::alloc::AllocError;

/// A sum; one past a machine word is answered as want of memory.
fn sum(a: usize, b: usize) -> Result<usize, AllocError>
    ensures sum { IfOk result (λ n. n ≡ a + b) }
    ensures past { OnErr result (2 ^ 64 ≤ a + b) }
{
    match a.checked_add(b) {
        Some(n) => Ok(n),
        None => Err(AllocError),
    }
}

/// The most lines of a step: two, two for each DD and two for each request.
fn step_budget(step: &StepPlan, programs: &ProgramLibrary) -> Result<usize, AllocError>
    ensures sum { IfOk result (λ n. n ≡ step_budget programs.now step.now) }
    ensures past { OnErr result (2 ^ 64 ≤ step_budget programs.now step.now) }
{
    let pairs = sum(step.dds.len(), programs.move_count(&step.program))?;
    let lines = sum(pairs, pairs)?;
    sum(2, lines)
}

/// How many of a step's DDs may pass a set.
fn passing(step: &StepPlan) -> usize
    ensures { result ≡ passing step.now }
{
    let mut number = 0;
    for dd in step.dds.as_slice() {
        if passes(&dd.kind) {
            number += 1;
        }
    }
    number
}

/// The most lines of all steps, and how many of their DDs may pass a set.
fn steps_budget(steps: &[StepPlan], programs: &ProgramLibrary) -> Result<usize, AllocError>
    ensures sum { IfOk result (λ n. n ≡ sum_by (step_budget programs.now) steps.now + sum_by passing steps.now) }
    ensures past { OnErr result (2 ^ 64 ≤ sum_by (step_budget programs.now) steps.now + sum_by passing steps.now) }
{
    let mut lines = 0;
    let mut lefts = 0;
    for step in steps {
        let more = step_budget(step, programs)?;
        lines = sum(lines, more)?;
        lefts = sum(lefts, passing(step))?;
    }
    sum(lines, lefts)
}

/// The most lines that a job writes, with these programs. It takes no memory; a number past a machine word, and no other, is answered as want of it.
pub fn budget_of(plan: &JobPlan, programs: &ProgramLibrary) -> Result<usize, AllocError>
    ensures sum { IfOk result (λ n. n ≡ budget_of plan.now programs.now) }
    ensures past { OnErr result (2 ^ 64 ≤ budget_of plan.now programs.now) }
{
    let lines = steps_budget(plan.steps.as_slice(), programs)?;
    sum(lines, 1)
}
