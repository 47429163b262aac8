//! Bytes of a record are overwritten: a Zap.
ghost use Rattle.std.specs.Prelude.{◌≡◌, Ok, OnErr, None, length};
ghost use Rattle.std.specs.List.{list_any};
ghost use Rattle.cb_meaning.specs.Walks.{owner_of};
ghost use Rattle.cb_queue.specs.RecordQueues.{shown};
ghost use Rattle.queued_job.specs.Listed.{AreListed};
ghost use Rattle.world_meaning.specs.Worlds.{Config};
ghost use Rattle.world_meaning.specs.Zaps.{ZapsRecord, is_within};
ghost use Rattle.sched_core.specs.Cancelling.{has_job};
ghost use Rattle.sched_core.specs.Done.{EventDone};
ghost use Rattle.sched_core.specs.Events.{RefusesFirst};
ghost use Rattle.sched_core.specs.Fits.{IsKept};
ghost use Rattle.sched_core.specs.Machines.{config_in, world_in, world_under};
ghost use Rattle.sched_core.specs.Zapping.{IsJudged, IsOpen, fault_of_owner};

use crate::cancelling::has_job;
use crate::fault::ApplyFault;
use crate::state::{Initiator, State};
use cb_meaning::layout::RECORD_BYTES;
use cb_queue::store::RecordStore;
use init_core::running::Profile;
use jcl_plan::entry::Entry;
use jcl_plan::fault::{Cause, QueueFault};
use plain::listed::Listed;
use queued_job::zapping::{overwrite, owner_of};
use session_input::event::{FIRST_OPEN, MOST_ZAPPED};
use std::alloc::Global;

/// Whether a record of the queue is named, of this many, and bytes that stay within what is open of it.
fn is_within(most: u32, n: u32, offset: u8, count: usize) -> bool
    ensures { result ≡ is_within most n offset count }
{
    1 <= n
        && n <= most
        && FIRST_OPEN <= offset
        && 1 <= count
        && count <= MOST_ZAPPED
        && usize::from(offset) + count <= RECORD_BYTES
}

/// Whether an initiator has a job.
fn has_initiator(initiators: &[Initiator], job: u16) -> bool
    ensures { result ≡ list_any (λ x. has_job x.running job) initiators.now }
{
    initiators.iter().any(|x| has_job(x, job))
}

/// Why the records of a job may not be overwritten, by whether it has an initiator, and whether it waits.
fn fault_of_owner(runs: bool, waits: bool) -> Option<QueueFault>
    ensures { result ≡ fault_of_owner runs waits }
{
    if runs {
        Some(QueueFault::Selected)
    } else if waits {
        None
    } else {
        Some(QueueFault::NotOwner)
    }
}

/// Why so many bytes of a record, from an offset on, may not be overwritten: Q2 where they are not open, or the record is free or has no owner that is not
/// over; then Q3 where its owner was selected.
fn zap_fault<Q: RecordStore>(
    state: &State<Q>,
    n: u32,
    offset: u8,
    count: usize,
) -> Option<QueueFault>
    requires { AreListed (Q.queue state.now.parts.queue).waiting state.now.backlog }
    ensures judged { (c : Config) → c.layout ≡ (Q.queue state.now.parts.queue).layout → IsJudged (world_in Q.queue c state.now) n offset count result }
    ensures within { result ≡ None → IsOpen (Q.queue state.now.parts.queue) n offset count }
{
    if !is_within(state.parts.queue.layout().most_records, n, offset, count) {
        return Some(QueueFault::NotOwner);
    }
    let Some(owner) = owner_of(&state.parts.queue, n) else {
        return Some(QueueFault::NotOwner);
    };
    let runs = has_initiator(state.initiators.as_slice(), owner);
    fault_of_owner(runs, state.backlog.has(owner))
}

/// Bytes of a record are overwritten as long as its job waits. It writes no line.
pub(crate) fn zap<Q: RecordStore>(
    alloc: Global,
    state: &mut State<Q>,
    profile: &Profile<'_>,
    n: u32,
    offset: u8,
    bytes: &[u8],
) -> Result<Listed<Entry>, ApplyFault>
    requires { IsKept Q.queue (config_in Q.queue profile.now state.old) state.old }
    ensures done { EventDone Q.queue profile.now state.old result state.new (λ w. ZapsRecord w n offset bytes.now) }
    ensures refusal { RefusesFirst result (ZapsRecord (world_under Q.queue profile.now state.old) n offset bytes.now) }
    ensures store { state.new.parts.store ≡ state.old.parts.store }
{
    if let Some(fault) = zap_fault(&*state, n, offset, bytes.len()) {
        return Err(ApplyFault::Refused(Cause::Q(fault)));
    }
    overwrite(&mut state.parts.queue, n, offset, bytes);
    Ok(Listed::empty(alloc))
}
