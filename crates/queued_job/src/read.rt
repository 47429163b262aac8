//! A selected job's records are read.
ghost use Rattle.std.specs.Prelude.{IfOk};
ghost use Rattle.cb_meaning.specs.Layouts.{HasOwnFields};
ghost use Rattle.queued_job.specs.Reads.{IsRead};

use cb_queue::store::RecordStore;
use cb_read::read::{ReadFault, read_chain};
use jcl_plan::plan::JobPlan;
use std::alloc::{AllocError, Global};

/// What a job's records say: its plan, or the number of the first fault.
#[derive(Drop)]
pub enum Read {
    Broken(u8),
    Plan(JobPlan),
}

/// Reads the records of a job whose JCT is record `first`, in a queue with as many lists of volumes as `units`.
pub fn read_job<Q: RecordStore>(
    alloc: Global,
    queue: &Q,
    units: u16,
    job: u16,
    first: u32,
) -> Result<Read, AllocError>
    requires { HasOwnFields (Q.queue queue.now).layout }
    ensures { IfOk result (IsRead (Q.queue queue.now) units job first) }
{
    match read_chain(alloc, queue, units, job, first) {
        Ok(plan) => Ok(Read::Plan(plan)),
        Err(ReadFault::Broken(fault)) => Ok(Read::Broken(fault)),
        Err(ReadFault::Memory) => Err(AllocError),
    }
}
