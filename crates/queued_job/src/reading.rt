//! A job that was read enters the queue.
ghost use Rattle.std.specs.Prelude.{◌≡◌, ◌≢◌, ◌+◌, ◌<◌, ◌≤◌, All, IfOk, OnErr, OnOk, length, ℕ};
ghost use Rattle.cb_chain.specs.Taking.{IsReady, IsTaken};
ghost use Rattle.cb_chain.specs.Written.{HoldsJobs, HoldsSteps};
ghost use Rattle.cb_meaning.specs.Writable.{IsWritable};
ghost use Rattle.queued_job.specs.Entering.{IsEntered, WaitsFirst, queued_of, with_queued};

use cb_chain::room::records_of;
use cb_chain::write::{take_first, write_from};
use cb_queue::store::RecordStore;
use jcl_plan::plan::JobPlan;
use queue_core::queue::Queued;
use std::alloc::AllocError;
use thiserror::Error;

/// Why a job does not enter the queue, which is as before.
#[derive(Clone, Copy, Debug, PartialEq, Eq, Error)]
pub enum EnterFault {
    #[error("fewer records are free than the job takes")]
    Full,
    #[error("out of memory")]
    Memory,
}

/// The job waits, with the number of the record that was taken first for it.
fn enter_waiting<Q: RecordStore>(
    queue: &mut Q,
    job: u16,
    first: u32,
    plan: &JobPlan,
) -> Result<(), AllocError>
    requires owner { job ≢ 0 }
    requires ready { IsReady (Q.queue queue.old) }
    requires taken { IsTaken job (Q.queue queue.old) first }
    requires later { All (λ x. x.job < job) (Q.queue queue.old).waiting }
    requires writable { (units : ℕ) × IsWritable (Q.queue queue.old).layout.most_steps units plan.now }
    ensures ok { OnOk result (Q.queue queue.new ≡ with_queued (Q.queue queue.old) (queued_of job plan.now first)) }
    ensures err { OnErr result (Q.queue queue.new ≡ Q.queue queue.old) }
    ensures room { Q.lacking queue.new ≡ Q.lacking queue.old }
{
    queue.enter(Queued {
        job,
        jct: first,
        class: plan.class,
        priority: plan.priority,
    })
}

/// Takes a job's first record, for which there is memory, and lets the job wait with it. Tells its number. An `Err` changes nothing.
fn wait_with_first<Q: RecordStore>(
    queue: &mut Q,
    job: u16,
    plan: &JobPlan,
) -> Result<u32, AllocError>
    requires owner { job ≢ 0 }
    requires holds { HoldsJobs (Q.queue queue.old).layout }
    requires later { All (λ x. x.job < job) (Q.queue queue.old).waiting }
    requires writable { (units : ℕ) × IsWritable (Q.queue queue.old).layout.most_steps units plan.now }
    requires room { Q.lacking queue.old + 1 ≤ length (Q.queue queue.old).free }
    ensures ok { IfOk result (WaitsFirst job plan.now (Q.queue queue.old) (Q.queue queue.new)) }
    ensures err { OnErr result (Q.queue queue.new ≡ Q.queue queue.old) }
    ensures room { Q.lacking queue.new ≡ Q.lacking queue.old }
{
    let _layout = queue.layout();
    let first = take_first(queue, job);
    match enter_waiting(queue, job, first, plan) {
        Ok(()) => Ok(first),
        Err(_) => {
            queue.give_back(first);
            Err(AllocError)
        }
    }
}

/// Writes a job's records, and lets it wait after all others. Tells the number of its first record. An `Err` changes nothing.
pub fn enter_job<Q: RecordStore>(queue: &mut Q, job: u16, plan: &JobPlan) -> Result<u32, EnterFault>
    requires owner { job ≢ 0 }
    requires later { All (λ x. x.job < job) (Q.queue queue.old).waiting }
    requires holds { HoldsJobs (Q.queue queue.old).layout }
    requires writable { (units : ℕ) × IsWritable (Q.queue queue.old).layout.most_steps units plan.now }
    requires days { HoldsSteps (Q.queue queue.old).layout plan.now.steps }
    ensures { IsEntered job plan.now (Q.queue queue.old) (Q.queue queue.new) result }
{
    let Some(count) = records_of(plan, queue.free_count()) else {
        return Err(EnterFault::Full);
    };
    let Ok(()) = queue.make_room(count) else {
        return Err(EnterFault::Memory);
    };
    let Ok(first) = wait_with_first(queue, job, plan) else {
        return Err(EnterFault::Memory);
    };
    write_from(queue, job, plan, first);
    Ok(first)
}
