//! COND of a call, which overrides that of the procedure's steps. (GC28-6704, "COND parameter")
ghost use Rattle.std.specs.Prelude.{◌≡◌, map};
ghost use Rattle.jcl_procs.specs.Overrides.{conditions_overridden, names_steps, with_step_condition, with_step_conditions, with_this};

use crate::overriding::{has_step, step_of};
use crate::step::FlatStep;
use jcl_cards::exec::{ExecCard, StepCondition};
use jcl_plan::fault::{Cause, StatementFault};
use jname_core::name8::Name8;
use list_values::condition::{Condition, copied};
use plain::listed::Listed;

/// Whether each of these names is that of a step.
fn names_steps(steps: &[FlatStep], names: &[Name8]) -> bool
    ensures { result ≡ names_steps steps.now names.now }
{
    names.iter().all(|name| has_step(*name, steps))
}

/// COND without a step stands in the place of that of every step.
fn put_condition(steps: &mut [FlatStep], condition: &Condition)
    ensures { steps.new ≡ map (with_this condition.now) steps.old }
{
    for step in steps.iter_mut() {
        step.condition = copied(condition);
    }
}

/// COND of one step stands in the place of that of the first step of the name.
fn put_step_condition(steps: &mut [FlatStep], own: &StepCondition)
    ensures { steps.new ≡ with_step_condition steps.old own.now }
{
    if let Some(n) = step_of(own.step, steps) {
        steps[n].condition = copied(&own.condition);
    }
}

fn put_step_conditions(steps: &mut [FlatStep], conditions: &[StepCondition])
    ensures { steps.new ≡ with_step_conditions steps.old conditions.now }
{
    for own in conditions {
        put_step_condition(steps, own);
    }
}

/// The steps of a call with the conditions that the call gives them.
pub fn override_conditions(
    steps: Listed<FlatStep>,
    exec: &ExecCard,
) -> Result<Listed<FlatStep>, Cause>
    ensures { result ≡ conditions_overridden steps exec.now }
{
    if !names_steps(steps.as_slice(), exec.named_steps.as_slice()) {
        return Err(Cause::P(StatementFault::NoSuchProcedureStep));
    }
    let mut steps = steps.into_vec();
    if let Some(condition) = &exec.condition {
        put_condition(steps.as_mut_slice(), condition.get());
    }
    put_step_conditions(steps.as_mut_slice(), exec.step_conditions.as_slice());
    Ok(Listed::new(steps))
}
