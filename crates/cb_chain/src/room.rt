//! Whether as many records are free as a job takes.
ghost use Rattle.std.specs.Prelude.{◌≡◌, ◌+◌, ◌-◌, ◌≤◌, ◌↔◌, IsTrue, SomeIff, sum_by};
ghost use Rattle.cb_meaning.specs.Needs.{records_below, records_needed, records_of_step};

use jcl_plan::plan::{DdKind, DdPlan, JobPlan, StepPlan};

/// What is left of free records once so many are taken, or none where they do not suffice.
fn after(free: u32, count: usize) -> Option<u32>
    ensures { SomeIff result (count ≤ free) (free - count) }
{
    if count > free as usize {
        return None;
    }
    Some(free - count as u32)
}

/// How many records a DD takes beside its SIOT.
fn records_below(kind: &DdKind) -> usize
    ensures { result ≡ records_below kind.now }
{
    match kind {
        DdKind::Sysout(_) => 0,
        DdKind::Dummy => 0,
        DdKind::Cards(cards) => cards.len() / 2 + cards.len() % 2,
        DdKind::Set(_) => 1,
    }
}

/// What is left once the records of a DD are taken.
fn after_dd(free: u32, dd: &DdPlan) -> Option<u32>
    ensures { SomeIff result (1 + records_below dd.now.kind ≤ free) (free - (1 + records_below dd.now.kind)) }
{
    let left = after(free, 1)?;
    after(left, records_below(&dd.kind))
}

/// What is left once the records of these DDs are taken.
fn after_dds(free: u32, dds: &[DdPlan]) -> Option<u32>
    ensures { SomeIff result (sum_by (λ dd. 1 + records_below dd.kind) dds.now ≤ free) (free - sum_by (λ dd. 1 + records_below dd.kind) dds.now) }
{
    let mut left = free;
    for dd in dds {
        left = after_dd(left, dd)?;
    }
    Some(left)
}

/// What is left once the records of a step are taken.
fn after_step(free: u32, step: &StepPlan) -> Option<u32>
    ensures { SomeIff result (records_of_step step.now ≤ free) (free - records_of_step step.now) }
{
    let left = after(free, 1)?;
    after_dds(left, step.dds.as_slice())
}

/// What is left once the records of these steps are taken.
fn after_steps(free: u32, steps: &[StepPlan]) -> Option<u32>
    ensures { SomeIff result (sum_by records_of_step steps.now ≤ free) (free - sum_by records_of_step steps.now) }
{
    let mut left = free;
    for step in steps {
        left = after_step(left, step)?;
    }
    Some(left)
}

/// How many records a job takes, or none where so many free ones are not enough.
pub fn records_of(plan: &JobPlan, free: u32) -> Option<u32>
    ensures { SomeIff result (records_needed plan.now ≤ free) (records_needed plan.now) }
{
    let left = after(free, 1)?;
    let left = after_steps(left, plan.steps.as_slice())?;
    Some(free - left)
}

/// Whether so many free records are enough for a job.
pub fn is_room(plan: &JobPlan, free: u32) -> bool
    ensures { IsTrue result ↔ records_needed plan.now ≤ free }
{
    records_of(plan, free).is_some()
}
