//! One job is carried over.
ghost use Rattle.std.specs.Prelude.{◌≡◌, ◌≢◌, ◌≤◌, ℕ, List, IfOk};
ghost use Rattle.cb_chain.specs.Written.{HoldsJobs, HoldsSteps, Written};
ghost use Rattle.cb_meaning.specs.Writable.{IsWritable};
ghost use Rattle.cb_meaning.specs.declared.layout.TheConstants.{LAYOUT_1, LAYOUT_2};
ghost use Rattle.machine_meaning.specs.declared.machine.TheConstants.{MOST_JOBS};
ghost use Rattle.queue_images.specs.Carrying.{CarriesOne};
ghost use Rattle.queue_images.specs.Loading.{IsLoaded};

use crate::image::WaitingJob;
use cb_chain::laws::the_layouts_hold_jobs;
use cb_chain::room::records_of;
use cb_chain::write::write_job;
use cb_queue::store::RecordStore;
use cb_read::laws::the_layouts_have_own_fields;
use jcl_plan::plan::JobPlan;
use open_laws::first_fault_stays;
use queued_job::read::{Read, read_job};
use std::alloc::{AllocError, Global};
use walk_laws::denoted_has_no_fault;
use world_laws::{denotes_still, layouts_have_own_links};

/// Writes a job that was read into free records. Tells the first.
fn write_anew<S: RecordStore>(new: &mut S, job: u16, plan: &JobPlan) -> Result<u32, AllocError>
    requires owner { job ≢ 0 }
    requires holds { HoldsJobs (S.queue new.old).layout }
    requires writable { (units : ℕ) × IsWritable (S.queue new.old).layout.most_steps units plan.now }
    requires days { HoldsSteps (S.queue new.old).layout plan.now.steps }
    ensures { IfOk result (Written job plan.now (S.queue new.old) (S.queue new.new)) }
{
    let Some(count) = records_of(plan, new.free_count()) else {
        return Err(AllocError);
    };
    new.make_room(count)?;
    match write_job(new, job, plan) {
        Ok(first) => Ok(first),
        Err(_) => unreachable!(),
    }
}

/// Writes a job of an image into free records, if its own can be read. Tells the first, or the fault of its own.
pub(crate) fn carry_job<R: RecordStore, S: RecordStore>(
    alloc: Global,
    old: &R,
    new: &mut S,
    units: u16,
    w: WaitingJob,
) -> Result<Result<u32, u8>, AllocError>
    requires number { (1 ≤ w.job) × (w.job ≤ MOST_JOBS) }
    requires first { (R.queue old.now).layout ≡ LAYOUT_1 }
    requires layout { (S.queue new.old).layout ≡ LAYOUT_2 }
    ensures { (image : List ℕ) → IsLoaded image (R.queue old.now) → IfOk result (CarriesOne image units w (S.queue new.old) (S.queue new.new)) }
{
    the_layouts_hold_jobs();
    the_layouts_have_own_fields();
    layouts_have_own_links();
    first_fault_stays();
    denoted_has_no_fault();
    denotes_still();
    let _layout = old.layout();
    match read_job(alloc, old, units, w.job, w.jct)? {
        Read::Broken(fault) => Ok(Err(fault)),
        Read::Plan(plan) => Ok(Ok(write_anew(new, w.job, &plan)?)),
    }
}
