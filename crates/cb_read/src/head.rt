//! A job, of its JCT and of what it leads to.
ghost use Rattle.std.specs.Prelude.{◌≡◌, IfOk};
ghost use Rattle.cb_read.specs.Chains.{plan_of};
ghost use Rattle.cb_read.specs.Kinds.{IsJobOfKind};
ghost use Rattle.cb_read.specs.Ranges.{IsJobInRange};

use crate::names::name8;
use crate::records::record;
use crate::steps::steps_read;
use crate::tests_read::{TestsOf, tests_read};
use cb_queue::store::RecordStore;
use cb_records::jct::JctView;
use jcl_plan::plan::JobPlan;
use std::alloc::{AllocError, Global};

/// The plan of the job whose JCT has this number.
pub(crate) fn plan_read<S: RecordStore>(
    alloc: Global,
    store: &S,
    n: u32,
) -> Result<JobPlan, AllocError>
    requires range { IsJobInRange (plan_of (S.queue store.now) n) }
    requires kinds { IsJobOfKind (S.queue store.now) n }
    ensures { IfOk result (λ plan. plan ≡ plan_of (S.queue store.now) n) }
{
    let bytes = record(store, n);
    let r = JctView {
        bytes: &bytes,
        layout: store.layout(),
    };
    Ok(JobPlan {
        name: name8(r.name()),
        class: r.class(),
        priority: r.priority(),
        message_class: r.message_class(),
        tests: tests_read(TestsOf::Job, r.tests(), r.test_count()),
        steps: steps_read(alloc, store, r.first_step())?,
    })
}
