//! A job is written into free records.
ghost use Rattle.std.specs.Prelude.{◌≡◌, ◌≢◌, ◌+◌, ◌≤◌, ◌↔◌, IfErr, IfOk, IsOk, OnErr, Some, length, true, ℕ};
ghost use Rattle.cb_meaning.specs.Needs.{records_needed};
ghost use Rattle.cb_meaning.specs.Writable.{IsWritable};
ghost use Rattle.cb_queue.specs.RecordQueues.{next_free, taken};
ghost use Rattle.cb_chain.specs.Taking.{IsReady, IsTaken, IsWrittenFrom, TakesIf};
ghost use Rattle.cb_chain.specs.Written.{HoldsJobs, HoldsSteps, Written};

use crate::job_record::jct_record;
use crate::room::is_room;
use crate::steps::write_steps;
use crate::take::take_if;
use cb_queue::store::RecordStore;
use jcl_plan::fault::QueueFault;
use jcl_plan::plan::JobPlan;

/// Takes a job's first record, for which there is memory. Tells its number.
pub fn take_first<S: RecordStore>(store: &mut S, job: u16) -> u32
    requires owner { job ≢ 0 }
    requires holds { HoldsJobs (S.queue store.old).layout }
    requires room { S.lacking store.old + 1 ≤ length (S.queue store.old).free }
    ensures next { Some result ≡ next_free (S.queue store.old) }
    ensures value { S.queue store.new ≡ taken (S.queue store.old) job }
    ensures takes { TakesIf job true (S.queue store.old) (S.queue store.new) result }
    ensures ready { IsReady (S.queue store.old) }
    ensures room { S.lacking store.new ≡ S.lacking store.old }
{
    let _layout = store.layout();
    store.take_free(job).unwrap()
}

/// Writes a job's plan into the record that was taken first for it, and into free ones, for which there is memory, in the order of writing.
pub fn write_from<S: RecordStore>(store: &mut S, job: u16, plan: &JobPlan, first: u32)
    requires owner { job ≢ 0 }
    requires ready { IsReady (S.queue store.old) }
    requires writable { (units : ℕ) × IsWritable (S.queue store.old).layout.most_steps units plan.now }
    requires days { HoldsSteps (S.queue store.old).layout plan.now.steps }
    requires taken { IsTaken job (S.queue store.old) first }
    requires room { S.lacking store.old + records_needed plan.now ≤ length (S.queue store.old).free + 1 }
    ensures written { IsWrittenFrom job plan.now (S.queue store.old) (S.queue store.new) first }
    ensures room { S.lacking store.new ≡ S.lacking store.old }
{
    let layout = *store.layout();
    let first_step = write_steps(store, &layout, job, plan.steps.as_slice());
    store.put(first, &jct_record(&layout, job, plan, first_step));
}

/// Writes a job's plan into free records, for which there is memory, in the order of writing. Tells the number of the first. Where fewer are free than the job
/// takes, none is taken.
pub fn write_job<S: RecordStore>(store: &mut S, job: u16, plan: &JobPlan) -> Result<u32, QueueFault>
    requires owner { job ≢ 0 }
    requires holds { HoldsJobs (S.queue store.old).layout }
    requires writable { (units : ℕ) × IsWritable (S.queue store.old).layout.most_steps units plan.now }
    requires days { HoldsSteps (S.queue store.old).layout plan.now.steps }
    requires memory { records_needed plan.now ≤ length (S.queue store.old).free → S.lacking store.old + records_needed plan.now ≤ length (S.queue store.old).free }
    ensures room { IsOk result ↔ records_needed plan.now ≤ length (S.queue store.old).free }
    ensures written { IfOk result (Written job plan.now (S.queue store.old) (S.queue store.new)) }
    ensures full { IfErr result (λ fault. fault ≡ QueueFault.Full) }
    ensures unchanged { OnErr result (S.queue store.new ≡ S.queue store.old) }
{
    if !is_room(plan, store.free_count()) {
        return Err(QueueFault::Full);
    }
    let first = take_first(store, job);
    write_from(store, job, plan, first);
    Ok(first)
}
