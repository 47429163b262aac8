//! Steps and DDs that have the name of one before them.
use jcl_plan::plan::{DdPlan, StepPlan};
use jname_core::name8::Name8;
use std::alloc::AllocError;

/// Whether two names are there and the same.
fn are_same(one: &Option<Name8>, other: &Option<Name8>) -> bool {
    match (one, other) {
        (Some(one), Some(other)) => one.as_slice() == other.as_slice(),
        _ => false,
    }
}

/// Whether a step has a name of its own.
fn is_named(step: &StepPlan) -> bool {
    step.name.is_some()
}

/// Whether two steps have the same name. Steps of a procedure have names of their own in each call.
fn have_one_name(one: &StepPlan, other: &StepPlan) -> bool {
    let of_procedure = match (&one.procedure_step, &other.procedure_step) {
        (None, None) => true,
        (own, of_other) => are_same(own, of_other),
    };
    of_procedure && is_named(one) && are_same(&one.name, &other.name)
}

/// Whether one of the steps before a step, of which there are so many, has its name too.
pub(crate) fn is_same_step(steps: &[StepPlan], count: usize, step: &StepPlan) -> bool {
    let (before, _) = steps.split_at(count.min(steps.len()));
    before.iter().any(|other| have_one_name(step, other))
}

/// Writes the name of a step, and that of the procedure's step that it is.
pub(crate) fn push_step_name(words: &mut Vec<u8>, step: &StepPlan) -> Result<(), AllocError> {
    if let Some(name) = &step.name {
        words.extend_from_slice(name.as_slice())?;
    }
    if let Some(name) = &step.procedure_step {
        words.push(b'.')?;
        words.extend_from_slice(name.as_slice())?;
    }
    Ok(())
}

/// The name of a DD, if one of those before it in the step has it too. DDs count from 0.
pub(crate) fn same_dd(dds: &[DdPlan], d: usize) -> Option<&Name8> {
    let dd = dds.get(d)?;
    let (before, _) = dds.split_at(d.min(dds.len()));
    if before.iter().any(|other| are_same(&other.name, &dd.name)) {
        return dd.name.as_ref();
    }
    None
}
