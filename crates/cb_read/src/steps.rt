//! The steps of a job.
ghost use Rattle.std.specs.Prelude.{◌≡◌, ◌+◌, All, IfOk};
ghost use Rattle.cb_meaning.specs.Fields.{number_at};
ghost use Rattle.cb_read.specs.Chains.{step_of, steps_from};
ghost use Rattle.cb_read.specs.Kinds.{AreDds, AreSteps};
ghost use Rattle.cb_read.specs.Ranges.{IsStepInRange};

use crate::codes::after_abend_read;
use crate::dds::dds_read;
use crate::names::{name_read, name8};
use crate::tests_read::{TestsOf, tests_read};
use cb_queue::store::RecordStore;
use cb_records::rec::Rec;
use cb_records::sct::SctView;
use cb_walk::arrival::bring;
use jcl_plan::plan::StepPlan;
use plain::listed::Listed;
use std::alloc::{AllocError, Global};

/// A step, of its SCT.
fn step_read<S: RecordStore>(
    alloc: Global,
    store: &S,
    r: &SctView<'_>,
) -> Result<StepPlan, AllocError>
    requires layout { r.now.layout.now ≡ (S.queue store.now).layout }
    requires range { IsStepInRange (step_of (S.queue store.now) r.now.bytes.now) }
    requires kinds { AreDds (S.queue store.now) ((S.queue store.now).layout.most_records + 1) (number_at r.now.bytes.now (S.queue store.now).layout.first_dd) }
    ensures { IfOk result (λ step. step ≡ step_of (S.queue store.now) r.now.bytes.now) }
{
    Ok(StepPlan {
        name: name_read(r.name()),
        procedure_step: name_read(r.procedure_step()),
        program: name8(r.program()),
        after_abend: after_abend_read(r.after_abend()),
        tests: tests_read(TestsOf::Step, r.tests(), r.test_count()),
        dds: dds_read(alloc, store, r.first_dd())?,
    })
}

/// The steps of the records from one on.
pub(crate) fn steps_read<S: RecordStore>(
    alloc: Global,
    store: &S,
    first: u32,
) -> Result<Listed<StepPlan>, AllocError>
    requires range { All IsStepInRange (steps_from (S.queue store.now) first) }
    requires kinds { AreSteps (S.queue store.now) ((S.queue store.now).layout.most_records + 1) first }
    ensures { IfOk result (λ steps. steps ≡ steps_from (S.queue store.now) first) }
{
    let layout = store.layout();
    let mut steps = Listed::empty(alloc);
    let mut r = Rec::zeroed();
    let mut n = first;
    let mut left = u64::from(layout.most_records) + 1;
    while left > 0 {
        if n == 0 {
            return Ok(steps);
        }
        bring(store, n, &mut r);
        let view = SctView { bytes: &r, layout };
        steps.push(step_read(alloc, store, &view)?)?;
        n = view.next();
        left -= 1;
    }
    Ok(steps)
}
