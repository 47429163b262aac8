//! A selected job's records are read: BROKEN, or its names at once.
ghost use Rattle.std.specs.Prelude.{◌≡◌, ◌≢◌, All, IfErr, IfOk, OnErr, length};
ghost use Rattle.enq_core.specs.Holds.{HoldsNone};
ghost use Rattle.cb_meaning.specs.Layouts.{HasOwnFields};
ghost use Rattle.init_core.specs.Finding.{IsFound};
ghost use Rattle.init_core.specs.Going.{WentUnder};
ghost use Rattle.init_core.specs.Running.{IsGood, config_of};
ghost use Rattle.init_core.specs.declared.running.Stage.TheVariants as stage;

use crate::names::{going_on, wish};
use crate::running::{Profile, Progress, Running, Stage, over};
use cb_queue::store::RecordStore;
use enq_core::table::Want;
use jcl_plan::entry::JobLine;
use jcl_plan::plan::JobPlan;
use machine_core::over::release_unnamed;
use machine_core::parts::Parts;
use plain::listed::Listed;
use queued_job::laws::wants_are_in_order;
use queued_job::read::{Read, read_job};
use queued_job::wants::wants_of;
use std::alloc::{AllocError, Global};
use turn_core::walk::Walk;

/// What a job's records say, with the names that it wants.
#[derive(Drop)]
enum Found {
    Broken(u8),
    Job(JobPlan, Listed<Want>),
}

/// Reads the records of a job.
fn find<Q: RecordStore>(
    alloc: Global,
    queue: &Q,
    profile: &Profile<'_>,
    job: u16,
    first: u32,
) -> Result<Found, AllocError>
    requires { HasOwnFields (Q.queue queue.now).layout }
    ensures { IfOk result (IsFound (Q.queue queue.now) (length profile.now.units.now) job first) }
{
    let units = profile.units.len() as u16;
    match read_job(alloc, queue, units, job, first)? {
        Read::Broken(fault) => Ok(Found::Broken(fault)),
        Read::Plan(plan) => {
            let wants = wants_of(alloc, &plan)?;
            Ok(Found::Job(plan, wants))
        }
    }
}

fn selected(job: u16, walk: Walk, first: u32) -> Running
    ensures { result ≡ record { job = job; walk = walk; stage = stage.Selected first } }
{
    Running {
        job,
        walk,
        stage: Stage::Selected { first },
    }
}

/// The job as it was, without what its records say.
fn unread(job: u16, walk: Walk, first: u32, plan: JobPlan, wants: Listed<Want>) -> Running
    ensures { result ≡ record { job = job; walk = walk; stage = stage.Selected first } }
{
    selected(job, walk, first)
}

/// A selected job's turn. Where memory is missing the job is given back as it was, and nothing has changed.
#[inline(never)]
pub(crate) fn read<Q: RecordStore>(
    alloc: Global,
    parts: &mut Parts<Q>,
    profile: &Profile<'_>,
    job: u16,
    mut walk: Walk,
    first: u32,
) -> Result<Progress, Running>
    requires some { job ≢ 0 }
    requires none { HoldsNone parts.old.names job }
    requires good { IsGood Q.queue (config_of profile.now (Q.queue parts.old.queue).layout) parts.old }
    requires unqueued { All (λ x. x.job ≢ job) (Q.queue parts.old.queue).waiting }
    ensures ok { IfOk result (WentUnder Q.queue profile.now parts.old (record { job = job; walk = walk; stage = stage.Selected first }) parts.new) }
    ensures err { IfErr result (λ r. r ≡ record { job = job; walk = walk; stage = stage.Selected first }) }
    ensures same { OnErr result (parts.new ≡ parts.old) }
{
    wants_are_in_order();
    let from = walk.course.lines.len();
    match find(alloc, &parts.queue, profile, job, first) {
        Ok(Found::Broken(fault)) => {
            release_unnamed(parts, job);
            Ok(over(walk, None, JobLine::Broken(fault)))
        }
        Ok(Found::Job(plan, wants)) => match wish(parts, job, &mut walk, wants.as_slice()) {
            Ok(held) => Ok(going_on(job, walk, plan, wants, held, from)),
            Err(_) => Err(unread(job, walk, first, plan, wants)),
        },
        Err(_) => Err(selected(job, walk, first)),
    }
}
