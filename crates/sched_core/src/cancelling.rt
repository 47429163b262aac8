//! A job is cancelled.
ghost use Rattle.std.specs.Prelude.{◌≡◌, ◌≢◌, ◌∷◌, [], All, IfNone, IfOk, IfSome, None, OnErr, OnOk, Some, false, slice_get};
ghost use Rattle.enq_core.specs.Holds.{HoldsNone};
ghost use Rattle.jcl_plan.specs.declared.entry.Entry.TheVariants as entry;
ghost use Rattle.world_meaning.specs.Cancels.{CancelsJob, cancelled_lines};
ghost use Rattle.world_meaning.specs.Worlds.{Config};
ghost use Rattle.queued_job.specs.Cancelled.{with_job};
ghost use Rattle.init_core.specs.Extents.{ExtentsFollow};
ghost use Rattle.init_core.specs.Running.{IsReady};
ghost use Rattle.init_core.specs.declared.running.Running.{Running};
ghost use Rattle.sched_core.specs.Cancelling.{CancelsAt, CancelsRunning, GivesUp, LeavesQueue, RunsJob, has_admitted, has_job};
ghost use Rattle.sched_core.specs.Done.{EventDone};
ghost use Rattle.sched_core.specs.Events.{RefusesFirst};
ghost use Rattle.sched_core.specs.Fits.{IsKept};
ghost use Rattle.sched_core.specs.Machines.{RunsIn, config_in, world_under};
ghost use Rattle.sched_core.specs.declared.state.Initiator.{Initiator};

use crate::fault::ApplyFault;
use crate::lines::{cancelled, one};
use crate::state::{Initiator, State};
use cb_queue::store::RecordStore;
use init_core::ending::release_admitted;
use init_core::running::{NamedJob, Profile, Running, Stage};
use jcl_plan::entry::Entry;
use jcl_plan::fault::{Cause, EventFault};
use machine_core::over::{release, release_unnamed};
use machine_core::parts::Parts;
use plain::listed::Listed;
use queued_job::backlog::Backlog;
use queued_job::cancels::Cancels;
use std::alloc::{AllocError, Global};
use std::mem;

pub(crate) fn has_job(x: &Initiator, job: u16) -> bool
    ensures { result ≡ has_job x.now.running job }
{
    match &x.running {
        None => false,
        Some(running) => running.job == job,
    }
}

fn has_admitted(x: &Initiator) -> bool
    ensures { result ≡ has_admitted x.now.running }
{
    match &x.running {
        None => false,
        Some(running) => matches!(&running.stage, Stage::Admitted(_)),
    }
}

/// Where the initiator is that has a job.
fn place_of_job(initiators: &[Initiator], job: u16) -> Option<usize>
    ensures some { IfSome result (λ place. (r : Running) × RunsIn initiators.now place r × (r.job ≡ job)) }
    ensures none { IfNone result (All (λ x. has_job x.running job ≡ false) initiators.now) }
{
    for (place, x) in initiators.iter().enumerate() {
        if has_job(x, job) {
            return Some(place);
        }
    }
    None
}

/// A job that waits is cancelled. An `Err` changes nothing.
fn cancel_waiting<Q: RecordStore>(
    alloc: Global,
    parts: &mut Parts<Q>,
    backlog: &mut Backlog,
    job: u16,
) -> Result<Listed<Entry>, AllocError>
    requires some { job ≢ 0 }
    requires unnamed { HoldsNone parts.old.names job }
    ensures ok { IfOk result (λ lines. lines ≡ cancelled_lines job) }
    ensures left { OnOk result (LeavesQueue Q.queue job parts.old backlog.old parts.new backlog.new) }
    ensures err { OnErr result ((parts.new ≡ parts.old) × (backlog.new ≡ backlog.old)) }
{
    let lines = cancelled(alloc, job)?;
    parts.queue.remove(job);
    backlog.take(job);
    release_unnamed(parts, job);
    Ok(lines)
}

/// A job at an initiator gives back what it has.
fn give_up<Q: RecordStore>(parts: &mut Parts<Q>, running: Running)
    requires ready { (c : Config) × IsReady c parts.old.names running }
    requires unqueued { All (λ x. x.job ≢ running.job) (Q.queue parts.old.queue).waiting }
    ensures { GivesUp Q.queue running.job parts.old parts.new }
{
    let Running {
        job,
        walk: _,
        stage,
    } = running;
    match stage {
        Stage::Selected { first: _ } => release_unnamed(parts, job),
        Stage::Wanting { plan: _, wants: _ } => release_unnamed(parts, job),
        Stage::Named(named) => {
            let NamedJob { plan: _, held } = named;
            release(parts, job, held);
        }
        Stage::Admitted(admitted) => release_admitted(parts, job, admitted),
    }
}

/// The job of an initiator leaves it, with what it has. An `Err` changes nothing.
fn cancel_selected<Q: RecordStore>(
    alloc: Global,
    parts: &mut Parts<Q>,
    x: &mut Initiator,
    job: u16,
) -> Result<Listed<Entry>, AllocError>
    requires runs { RunsJob parts.old.names x.old job }
    requires unqueued { All (λ q. q.job ≢ job) (Q.queue parts.old.queue).waiting }
    ensures ok { IfOk result (λ lines. lines ≡ cancelled_lines job) }
    ensures gives { OnOk result (GivesUp Q.queue job parts.old parts.new) }
    ensures leaves { OnOk result (x.new ≡ record x.old { running = None }) }
    ensures err { OnErr result ((parts.new ≡ parts.old) × (x.new ≡ x.old)) }
{
    let lines = cancelled(alloc, job)?;
    let Some(running) = mem::replace(&mut x.running, None) else {
        unreachable!();
    };
    give_up(parts, running);
    Ok(lines)
}

/// The cancel of an admitted job is noted. An `Err` changes nothing.
fn cancel_admitted(
    alloc: Global,
    cancels: &mut Cancels,
    job: u16,
) -> Result<Listed<Entry>, AllocError>
    ensures ok { IfOk result (λ lines. lines ≡ entry.Cancel job ∷ []) }
    ensures added { OnOk result (cancels.new ≡ with_job cancels.old job) }
    ensures err { OnErr result (cancels.new ≡ cancels.old) }
{
    let lines = one(Vec::new(alloc), Entry::Cancel(job))?;
    cancels.add(job)?;
    Ok(lines)
}

/// The job of an initiator is cancelled. An `Err` changes nothing.
fn cancel_running<Q: RecordStore>(
    alloc: Global,
    parts: &mut Parts<Q>,
    x: &mut Initiator,
    job: u16,
) -> Result<Listed<Entry>, AllocError>
    requires runs { RunsJob parts.old.names x.old job }
    requires unqueued { All (λ q. q.job ≢ job) (Q.queue parts.old.queue).waiting }
    ensures ok { IfOk result (CancelsRunning Q.queue job parts.old x.old parts.new x.new) }
    ensures err { OnErr result ((parts.new ≡ parts.old) × (x.new ≡ x.old)) }
{
    if has_admitted(x) {
        cancel_admitted(alloc, &mut parts.cancels, job)
    } else {
        cancel_selected(alloc, parts, x, job)
    }
}

/// The job of the initiator at a place is cancelled. An `Err` changes nothing.
fn cancel_at<Q: RecordStore>(
    alloc: Global,
    parts: &mut Parts<Q>,
    initiators: &mut Vec<Initiator>,
    place: usize,
    job: u16,
) -> Result<Listed<Entry>, AllocError>
    requires runs { (x : Initiator) × (slice_get initiators.old.items place ≡ Some x) × RunsJob parts.old.names x job }
    requires unqueued { All (λ x. x.job ≢ job) (Q.queue parts.old.queue).waiting }
    ensures ok { IfOk result (CancelsAt Q.queue job place parts.old initiators.old.items parts.new initiators.new.items) }
    ensures err { OnErr result ((parts.new ≡ parts.old) × (initiators.new.items ≡ initiators.old.items)) }
{
    let x = &mut initiators[place];
    cancel_running(alloc, parts, x, job)
}

/// The job of the initiator at a place of the machine is cancelled.
fn cancel_there<Q: RecordStore>(
    alloc: Global,
    state: &mut State<Q>,
    profile: &Profile<'_>,
    place: usize,
    job: u16,
) -> Result<Listed<Entry>, ApplyFault>
    requires kept { IsKept Q.queue (config_in Q.queue profile.now state.old) state.old }
    requires runs { (r : Running) × RunsIn state.old.initiators.items place r × (r.job ≡ job) }
    ensures done { EventDone Q.queue profile.now state.old result state.new (λ w. CancelsJob w job) }
    ensures refusal { RefusesFirst result (CancelsJob (world_under Q.queue profile.now state.old) job) }
    ensures extents { OnOk result (ExtentsFollow state.old.parts.store state.new.parts.store) }
{
    match cancel_at(alloc, &mut state.parts, &mut state.initiators, place, job) {
        Ok(lines) => Ok(lines),
        Err(_) => Err(ApplyFault::Memory),
    }
}

/// A job is cancelled; one that neither waits nor has an initiator is refused.
pub(crate) fn cancel<Q: RecordStore>(
    alloc: Global,
    state: &mut State<Q>,
    profile: &Profile<'_>,
    job: u16,
) -> Result<Listed<Entry>, ApplyFault>
    requires { IsKept Q.queue (config_in Q.queue profile.now state.old) state.old }
    ensures done { EventDone Q.queue profile.now state.old result state.new (λ w. CancelsJob w job) }
    ensures refusal { RefusesFirst result (CancelsJob (world_under Q.queue profile.now state.old) job) }
    ensures extents { OnOk result (ExtentsFollow state.old.parts.store state.new.parts.store) }
{
    if state.backlog.has(job) {
        return match cancel_waiting(alloc, &mut state.parts, &mut state.backlog, job) {
            Ok(lines) => Ok(lines),
            Err(_) => Err(ApplyFault::Memory),
        };
    }
    let Some(place) = place_of_job(state.initiators.as_slice(), job) else {
        return Err(ApplyFault::Refused(Cause::A(EventFault::NoSuchJob)));
    };
    cancel_there(alloc, state, profile, place, job)
}
