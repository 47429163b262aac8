//! A deck is read.
ghost use Rattle.std.specs.Prelude.{◌≡◌, ◌≢◌, ◌<◌, ◌≤◌, ◌∷◌, ◌++◌, [], All, IfOk, OnErr, length, vec_capacity, vec_len, ℕ};
ghost use Rattle.cb_chain.specs.Written.{HoldsJobs, HoldsSteps};
ghost use Rattle.cb_meaning.specs.Writable.{IsWritable};
ghost use Rattle.jcl_job.specs.Jobs.{job_of};
ghost use Rattle.jcl_plan.specs.declared.entry.Entry.TheVariants as entry;
ghost use Rattle.jcl_plan.specs.declared.fault.Cause.{Cause};
ghost use Rattle.jcl_refs.specs.Plans.{most_steps};
ghost use Rattle.machine_meaning.specs.declared.machine.TheConstants.{MOST_JOBS};
ghost use Rattle.world_meaning.specs.Readings.{Reads, read_line};
ghost use Rattle.sched_core.specs.Done.{EventDone};
ghost use Rattle.sched_core.specs.Events.{RefusesFirst};
ghost use Rattle.sched_core.specs.Fits.{IsKept};
ghost use Rattle.sched_core.specs.Machines.{config_in, world_under};
ghost use Rattle.sched_core.specs.Reading.{ReadsPlan, TakesIn, listing_of};
ghost use Rattle.sched_core.specs.declared.fault.ApplyFault.TheVariants.{Refused};

use crate::fault::ApplyFault;
use crate::lines::{one, room_for_one};
use crate::state::State;
use cb_queue::store::RecordStore;
use init_core::running::Profile;
use jcl_job::job::job_of;
use jcl_plan::entry::{Entry, JobLine};
use jcl_plan::fault::{Cause, EventFault, QueueFault};
use jcl_plan::plan::JobPlan;
use jcl_refs::units::UnitNames;
use machine_meaning::machine::MOST_JOBS;
use plain::lent::Lent;
use plain::listed::Listed;
use plan_laws::job_is_writable;
use proc_library::library::ProcLibrary;
use queued_job::backlog::{Backlog, Listing};
use queued_job::reading::{EnterFault, enter_job};
use std::alloc::{AllocError, Global};
use std::mem;
use value_core::refusal::ReadError;

/// The first line of a job.
fn read_line(plan: &JobPlan) -> JobLine
    ensures { result ≡ read_line plan.now }
{
    JobLine::Read {
        name: plan.name,
        class: plan.class,
        priority: plan.priority,
    }
}

/// A job that waits has so many lines when it is selected: READ, and SELECT.
const LINES_BEFORE: usize = 2;

/// The listing of a job that was read.
fn listing_of(alloc: Global, job: u16, plan: &JobPlan) -> Result<Listing, AllocError>
    ensures { IfOk result (λ listing. listing ≡ listing_of job plan.now) }
{
    let mut lines = Vec::with_capacity(alloc, LINES_BEFORE)?;
    lines.push_reserved(read_line(plan));
    Ok(Listing {
        job,
        lines: Listed::new(lines),
    })
}

/// A line of a job behind the entries, in the room that is there for it.
fn with_line(mut entries: Vec<Entry>, job: u16, line: JobLine) -> Listed<Entry>
    requires { vec_len entries < vec_capacity entries }
    ensures { result ≡ entries.items ++ entry.Job job line ∷ [] }
{
    entries.push_reserved(Entry::Job(job, line));
    Listed::new(entries)
}

/// A job takes a number: it waits with its records and its listing, or is rejected where there is no room. An `Err` changes nothing.
fn take_in<Q: RecordStore>(
    alloc: Global,
    queue: &mut Q,
    backlog: &mut Backlog,
    job: u16,
    plan: &JobPlan,
    room: &mut Vec<Entry>,
) -> Result<Listed<Entry>, AllocError>
    requires owner { job ≢ 0 }
    requires queued { All (λ x. x.job < job) (Q.queue queue.old).waiting }
    requires listed { All (λ x. x.job < job) backlog.old }
    requires holds { HoldsJobs (Q.queue queue.old).layout }
    requires writable { (units : ℕ) × IsWritable (Q.queue queue.old).layout.most_steps units plan.now }
    requires days { HoldsSteps (Q.queue queue.old).layout plan.now.steps }
    ensures ok { IfOk result (TakesIn job plan.now (Q.queue queue.old) backlog.old (Q.queue queue.new) backlog.new) }
    ensures err { OnErr result ((Q.queue queue.new ≡ Q.queue queue.old) × (backlog.new ≡ backlog.old)) }
{
    let lines = room_for_one(mem::replace(room, Vec::new(alloc)))?;
    let listing = listing_of(alloc, job, plan)?;
    backlog.enter(listing)?;
    match enter_job(queue, job, plan) {
        Ok(_) => Ok(with_line(lines, job, read_line(plan))),
        Err(EnterFault::Full) => {
            backlog.take(job);
            Ok(with_line(lines, job, JobLine::Rejected(Cause::Q(QueueFault::Full))))
        }
        Err(EnterFault::Memory) => {
            backlog.take(job);
            Err(AllocError)
        }
    }
}

/// A deck that denotes a plan is read.
fn accept<Q: RecordStore>(
    alloc: Global,
    state: &mut State<Q>,
    profile: &Profile<'_>,
    plan: &JobPlan,
    room: &mut Vec<Entry>,
) -> Result<Listed<Entry>, ApplyFault>
    requires kept { IsKept Q.queue (config_in Q.queue profile.now state.old) state.old }
    requires few { state.old.jobs < MOST_JOBS }
    requires writable { IsWritable most_steps (length profile.now.units.now) plan.now }
    ensures done { EventDone Q.queue profile.now state.old result state.new (λ w. ReadsPlan w plan.now) }
    ensures never_refused { (cause : Cause) → result ≢ Err (Refused cause) }
    ensures store { state.new.parts.store ≡ state.old.parts.store }
{
    let job = state.jobs + 1;
    match take_in(
        alloc,
        &mut state.parts.queue,
        &mut state.backlog,
        job,
        plan,
        room,
    ) {
        Ok(lines) => {
            state.jobs = job;
            Ok(lines)
        }
        Err(_) => Err(ApplyFault::Memory),
    }
}

/// A deck is read: its job waits, or it is rejected and takes a number too. Past the last number it is refused.
pub(crate) fn read<Q: RecordStore>(
    alloc: Global,
    state: &mut State<Q>,
    profile: &Profile<'_>,
    units: &UnitNames,
    library: &ProcLibrary,
    deck: &[Lent<'_>],
    room: &mut Vec<Entry>,
) -> Result<Listed<Entry>, ApplyFault>
    requires kept { IsKept Q.queue (config_in Q.queue profile.now state.old) state.old }
    requires named { length units.now ≡ length profile.now.units.now }
    ensures done { EventDone Q.queue profile.now state.old result state.new (λ w. Reads (job_of units.now library.now) w deck.now) }
    ensures refusal { RefusesFirst result (Reads (job_of units.now library.now) (world_under Q.queue profile.now state.old) deck.now) }
    ensures store { state.new.parts.store ≡ state.old.parts.store }
{
    if MOST_JOBS <= state.jobs {
        return Err(ApplyFault::Refused(Cause::A(EventFault::PastLimit)));
    }
    match job_of(alloc, units, library, deck) {
        Err(ReadError::Memory) => Err(ApplyFault::Memory),
        Err(ReadError::Refused(cause)) => {
            let job = state.jobs + 1;
            let lines = one(
                mem::replace(room, Vec::new(alloc)),
                Entry::Job(job, JobLine::Rejected(cause)),
            )?;
            state.jobs = job;
            Ok(lines)
        }
        Ok(plan) => {
            job_is_writable();
            accept(alloc, state, profile, &plan, room)
        }
    }
}
