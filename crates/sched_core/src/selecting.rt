//! An initiator selects a job.
ghost use Rattle.std.specs.Prelude.{◌≡◌, ◌≢◌, ◌∷◌, ◌++◌, [], IfOk, OnErr, OnOk, Some};
ghost use Rattle.std.specs.Vec.{vec_len};
ghost use Rattle.jcl_plan.specs.declared.entry.JobLine.TheVariants as line;
ghost use Rattle.jcl_plan.specs.declared.fault.Cause.{Cause};
ghost use Rattle.queue_core.specs.Queues.{IsFirstOf};
ghost use Rattle.queue_core.specs.declared.queue.Queued.{Queued};
ghost use Rattle.world_meaning.specs.Selections.{Selects};
ghost use Rattle.queued_job.specs.Backlogs.{IsListingOf, told};
ghost use Rattle.queued_job.specs.Listed.{AreListed, but_listing};
ghost use Rattle.queued_job.specs.declared.backlog.Listing.{Listing};
ghost use Rattle.sched_core.specs.Done.{EventDone};
ghost use Rattle.sched_core.specs.Events.{SelectsAt};
ghost use Rattle.sched_core.specs.Fits.{IsKept};
ghost use Rattle.sched_core.specs.Machines.{config_in};
ghost use Rattle.sched_core.specs.Selecting.{IsIdleAt, Seats, queue_without, selected_as};
ghost use Rattle.sched_core.specs.declared.fault.ApplyFault.TheVariants.{Refused};

use crate::fault::ApplyFault;
use crate::lines::one;
use crate::seating::seat;
use crate::state::{Initiator, State};
use cb_queue::store::RecordStore;
use init_core::running::{Profile, Running, Stage};
use jcl_plan::entry::{Entry, JobLine};
use plain::listed::Listed;
use queue_core::queue::Queued;
use queued_job::backlog::{Backlog, Listing};
use queued_job::selecting::select;
use std::alloc::{AllocError, Global};
use std::mem;
use turn_core::walk::first_walk;

/// For so many lines of a job there is room from its selection on.
const FEW_LINES: usize = 8;

/// Lines in the room that is there for them, or where they are, if that is too small.
fn with_room(lines: Listed<JobLine>, mut room: Vec<JobLine>) -> Listed<JobLine>
    requires none { room.items ≡ [] }
    requires empty { vec_len room ≡ 0 }
    ensures { result ≡ lines }
{
    if room.capacity() < lines.len() {
        return lines;
    }
    for line in lines.into_vec() {
        room.push_reserved(line);
    }
    Listed::new(room)
}

/// A job that was selected, with its listing, in the room that is there for it.
fn selected(alloc: Global, queued: Queued, listing: Listing, room: Vec<JobLine>) -> Running
    requires none { room.items ≡ [] }
    requires empty { vec_len room ≡ 0 }
    ensures { result ≡ selected_as queued listing.lines }
{
    let Listing { job: _, lines } = listing;
    Running {
        job: queued.job,
        walk: first_walk(alloc, with_room(lines, room)),
        stage: Stage::Selected { first: queued.jct },
    }
}

/// Takes the job that is selected next of its class out of the queue, and its listing with a line more. An `Err` changes nothing.
fn take_out<Q: RecordStore>(
    queue: &mut Q,
    backlog: &mut Backlog,
    queued: Queued,
    line: JobLine,
) -> Result<Listing, AllocError>
    requires listed { (l : Listing) × IsListingOf backlog.old queued.job l }
    requires first { IsFirstOf (Q.queue queue.old).waiting queued.class queued }
    ensures ok { IfOk result (λ taken. (l : Listing) × IsListingOf backlog.old queued.job l × (taken ≡ told l line)) }
    ensures queue { OnOk result (Q.queue queue.new ≡ queue_without (Q.queue queue.old) queued.job) }
    ensures backlog { OnOk result (backlog.new ≡ but_listing queued.job backlog.old) }
    ensures err { OnErr result ((Q.queue queue.new ≡ Q.queue queue.old) × (backlog.new ≡ backlog.old)) }
{
    let Some(listing) = backlog.take_with(queued.job, line)? else {
        unreachable!();
    };
    queue.remove_first(queued);
    Ok(listing)
}

/// The initiator at a place takes the job that is selected next, if there is one. An `Err` changes nothing.
fn seat_next<Q: RecordStore>(
    alloc: Global,
    queue: &mut Q,
    backlog: &mut Backlog,
    initiators: &mut Vec<Initiator>,
    place: usize,
    room: &mut Vec<Entry>,
) -> Result<Listed<Entry>, AllocError>
    requires listed { AreListed (Q.queue queue.old).waiting backlog.old }
    requires idle { IsIdleAt initiators.old.items place }
    ensures ok { IfOk result (Seats (Q.queue queue.old) backlog.old initiators.old.items place (Q.queue queue.new) backlog.new initiators.new.items) }
    ensures err { OnErr result ((Q.queue queue.new ≡ Q.queue queue.old) × (backlog.new ≡ backlog.old) × (initiators.new.items ≡ initiators.old.items)) }
{
    let number = initiators[place].number;
    let classes = initiators[place].classes;
    let Some(queued) = select(queue, classes.as_slice()) else {
        return Ok(Listed::empty(alloc));
    };
    let lines = one(
        mem::replace(room, Vec::new(alloc)),
        Entry::Job(queued.job, JobLine::Selected(number)),
    )?;
    let few = Vec::with_capacity(alloc, FEW_LINES)?;
    let listing = take_out(queue, backlog, queued, JobLine::Selected(number))?;
    let running = selected(alloc, queued, listing, few);
    seat(&mut initiators[place], Some(running));
    Ok(lines)
}

/// The initiator at a place selects a job, if one waits for it. An `Err` changes nothing.
pub(crate) fn select_at<Q: RecordStore>(
    alloc: Global,
    state: &mut State<Q>,
    profile: &Profile<'_>,
    place: usize,
    room: &mut Vec<Entry>,
) -> Result<Listed<Entry>, ApplyFault>
    requires kept { IsKept Q.queue (config_in Q.queue profile.now state.old) state.old }
    requires idle { IsIdleAt state.old.initiators.items place }
    ensures done { EventDone Q.queue profile.now state.old result state.new (λ w. SelectsAt w place) }
    ensures never_refused { (cause : Cause) → result ≢ Err (Refused cause) }
    ensures store { state.new.parts.store ≡ state.old.parts.store }
{
    let _layout = state.parts.queue.layout();
    match seat_next(
        alloc,
        &mut state.parts.queue,
        &mut state.backlog,
        &mut state.initiators,
        place,
        room,
    ) {
        Ok(lines) => Ok(lines),
        Err(_) => Err(ApplyFault::Memory),
    }
}
