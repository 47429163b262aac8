//! The job's end carried out on a scene: what is passed and was not received.
ghost use Rattle.std.specs.Prelude.{◌≡◌, ◌++◌, IfOk, OnOk, length};
ghost use Rattle.disp_core.specs.Courses.{fixed_by};
ghost use Rattle.jcl_meaning.specs.Agendas.{left_by, lefts_from, lefts_in};
ghost use Rattle.view_core.specs.Lefts.{LeavesAll, left_actions};

use crate::walk::{JOB, Under};
use disp_core::course::Given;
use disp_core::dispose;
use disp_core::site::Site;
use jcl_meaning::words::passes;
use jcl_plan::plan::{DdPlan, StepPlan};
use job_text::texts::disp_text;
use std::alloc::{AllocError, Global};
use view_domain::crossed::Stop;

/// A DD that may have passed a set, by its numbers, which count from 1.
#[derive(Clone, Copy)]
pub(crate) struct LeftDd<'a> {
    pub(crate) step: usize,
    pub(crate) dd: usize,
    pub(crate) plan: &'a DdPlan,
}

fn push_if<'a>(
    lefts: &mut Vec<LeftDd<'a>>,
    step: usize,
    dd: usize,
    plan: &'a DdPlan,
) -> Result<(), AllocError>
    ensures { OnOk result (left_actions lefts.new.items ≡ left_actions lefts.old.items ++ left_by step dd plan.now) }
{
    if passes(&plan.kind) {
        lefts.push(LeftDd { step, dd, plan })?;
    }
    Ok(())
}

fn push_dds<'a>(
    lefts: &mut Vec<LeftDd<'a>>,
    step: usize,
    dds: &'a [DdPlan],
) -> Result<(), AllocError>
    ensures { OnOk result (left_actions lefts.new.items ≡ left_actions lefts.old.items ++ lefts_in step 1 dds.now) }
{
    for (i, d) in dds.iter().enumerate() {
        push_if(lefts, step, i + 1, d)?;
    }
    Ok(())
}

/// The DDs of these steps that may have passed a set, in order.
pub(crate) fn lefts_of<'a>(
    alloc: Global,
    steps: &'a [StepPlan],
) -> Result<Vec<LeftDd<'a>>, AllocError>
    ensures { IfOk result (λ lefts. left_actions lefts.items ≡ lefts_from 1 steps.now) }
{
    let mut lefts = Vec::new(alloc);
    for (i, step) in steps.iter().enumerate() {
        push_dds(&mut lefts, i + 1, step.dds.as_slice())?;
    }
    Ok(lefts)
}

/// Deals with what these DDs passed, at the end of a job of so many steps, and tells the first fault.
pub(crate) fn leave_all(
    given: &Given<'_>,
    steps: usize,
    lefts: &[LeftDd<'_>],
    under: &mut Under,
) -> Result<Option<Stop>, AllocError>
    ensures { IfOk result (λ stop. LeavesAll (fixed_by given.now) steps lefts.now under.old stop under.new) }
{
    for (i, left) in lefts.iter().enumerate() {
        let at = Site {
            job: JOB,
            step: left.step,
            dd: left.dd,
            name: left.plan.name,
        };
        let meets = dispose::leave(
            &mut under.store,
            given,
            &mut under.course,
            &at,
            &disp_text(&left.plan.kind),
        )?;
        if let Some(fault) = meets {
            return Ok(Some(Stop {
                at: i,
                step: left.step,
                dd: left.dd,
                ended: steps,
                fault,
            }));
        }
    }
    Ok(None)
}
