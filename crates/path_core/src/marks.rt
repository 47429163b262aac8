//! The actions of a job at which the fault of a report may be met.
ghost use Rattle.std.specs.Prelude.{◌≡◌, ◌++◌, IfOk, OnOk, length, map};
ghost use Rattle.jcl_meaning.specs.Agendas.{left_by, lefts_from, lefts_in, path_agenda};
ghost use Rattle.path_core.specs.Marks.{dd_marks, is_at, is_spot, mark_at, place_of, step_marks, steps_marks};

use jcl_meaning::words::passes;
use jcl_plan::plan::{DdPlan, JobPlan, StepPlan};
use plain::listed::Listed;
use std::alloc::{AllocError, Global};

/// A step and a DD, from 1, and how many steps have ended there.
#[derive(Clone, Copy)]
pub(crate) struct Spot {
    pub(crate) step: usize,
    pub(crate) dd: usize,
    pub(crate) ended: usize,
}

impl Spot {
    fn is(&self, step: usize, dd: usize, ended: usize) -> bool
        ensures { result ≡ is_spot (place_of self.now) step dd ended }
    {
        self.step == step && self.dd == dd && self.ended == ended
    }
}

/// Marks for the takes, or for the dispositions, of so many DDs of a step.
fn mark_dds(
    marks: &mut Listed<bool>,
    spot: &Spot,
    n: usize,
    ended: usize,
    dds: usize,
) -> Result<(), AllocError>
    ensures { OnOk result (marks.new ≡ marks.old ++ dd_marks (place_of spot.now) n ended 1 dds) }
{
    for i in 0..dds {
        marks.push(spot.is(n, i + 1, ended))?;
    }
    Ok(())
}

/// Marks for the actions of a step: its start, its takes, its end and its dispositions.
fn mark_step(
    marks: &mut Listed<bool>,
    spot: &Spot,
    before: usize,
    n: usize,
    dds: usize,
) -> Result<(), AllocError>
    ensures { OnOk result (marks.new ≡ marks.old ++ step_marks (place_of spot.now) before n dds) }
{
    marks.push(false)?;
    mark_dds(marks, spot, n, before, dds)?;
    marks.push(false)?;
    mark_dds(marks, spot, n, n, dds)?;
    Ok(())
}

/// Marks for the actions of the steps.
fn mark_steps(marks: &mut Listed<bool>, spot: &Spot, steps: &[StepPlan]) -> Result<(), AllocError>
    ensures { OnOk result (marks.new ≡ marks.old ++ steps_marks (place_of spot.now) 0 steps.now) }
{
    for (before, step) in steps.iter().enumerate() {
        mark_step(marks, spot, before, before + 1, step.dds.len())?;
    }
    Ok(())
}

/// A mark for the job's end of a DD that may have passed a set.
fn mark_left(
    marks: &mut Listed<bool>,
    spot: &Spot,
    steps: usize,
    n: usize,
    dd: usize,
    d: &DdPlan,
) -> Result<(), AllocError>
    ensures { OnOk result (marks.new ≡ marks.old ++ map (is_at steps (place_of spot.now)) (left_by n dd d.now)) }
{
    if passes(&d.kind) {
        marks.push(spot.is(n, dd, steps))?;
    }
    Ok(())
}

/// Marks for the job's end of a step's DDs.
fn mark_lefts_in(
    marks: &mut Listed<bool>,
    spot: &Spot,
    steps: usize,
    n: usize,
    dds: &[DdPlan],
) -> Result<(), AllocError>
    ensures { OnOk result (marks.new ≡ marks.old ++ map (is_at steps (place_of spot.now)) (lefts_in n 1 dds.now)) }
{
    for (i, d) in dds.iter().enumerate() {
        mark_left(marks, spot, steps, n, i + 1, d)?;
    }
    Ok(())
}

/// Marks for the job's end of all DDs.
fn mark_lefts(marks: &mut Listed<bool>, spot: &Spot, steps: &[StepPlan]) -> Result<(), AllocError>
    ensures { OnOk result (marks.new ≡ marks.old ++ map (is_at (length steps.now) (place_of spot.now)) (lefts_from 1 steps.now)) }
{
    for (i, step) in steps.iter().enumerate() {
        mark_lefts_in(marks, spot, steps.len(), i + 1, step.dds.as_slice())?;
    }
    Ok(())
}

/// A mark for each action of the job along given outcomes: whether a fault that it meets stands at the spot.
pub(crate) fn marks_of(
    alloc: Global,
    plan: &JobPlan,
    spot: &Spot,
) -> Result<Listed<bool>, AllocError>
    ensures { IfOk result (λ marks. marks ≡ map (is_at (length plan.now.steps) (place_of spot.now)) (path_agenda plan.now)) }
{
    let mut marks = Listed::empty(alloc);
    mark_steps(&mut marks, spot, plan.steps.as_slice())?;
    mark_lefts(&mut marks, spot, plan.steps.as_slice())?;
    marks.push(false)?;
    Ok(marks)
}

/// The mark of the action at a place.
pub(crate) fn mark_at(marks: &[bool], place: usize) -> bool
    ensures { result ≡ mark_at marks.now place }
{
    match marks.get(place) {
        Some(mark) => *mark,
        None => false,
    }
}
