//! What happens at an event.
ghost use Rattle.std.specs.Prelude.{◌≡◌, ◌≢◌, ◌+◌, ◌<◌, ◌≤◌, All, IfNone, IfOk, IfSome, OnErr, length, OnOk};
ghost use Rattle.jcl_job.specs.Jobs.{job_of};
ghost use Rattle.machine_meaning.specs.declared.machine.TheConstants.{MOST_EVENTS};
ghost use Rattle.world_meaning.specs.Transitions.{Does, Transition, Turns};
ghost use Rattle.init_core.specs.Extents.{ExtentsFollow};
ghost use Rattle.sched_core.specs.Done.{EventDone, EventDoneSo};
ghost use Rattle.sched_core.specs.Events.{RefusesFirst, TurnsSo};
ghost use Rattle.sched_core.specs.Fits.{IsKept};
ghost use Rattle.sched_core.specs.Happening.{IsSeat};
ghost use Rattle.sched_core.specs.Machines.{config_in, world_under};
ghost use Rattle.sched_core.specs.Systems.{AppliesSo, KeepsStateIfRefused, KeepsStateWithoutMemory, meant_by};

use crate::cancelling::cancel;
use crate::fault::ApplyFault;
use crate::going::go_on_at;
use crate::reading::read;
use crate::selecting::select_at;
use crate::showing::{display, end_device, set_date, write};
use crate::state::{Initiator, State};
use crate::zapping::zap;
use case_laws::supplies_are_kept;
use cb_queue::store::RecordStore;
use init_core::running::Profile;
use jcl_plan::entry::Entry;
use jcl_plan::fault::{Cause, EventFault};
use jcl_refs::units::UnitNames;
use law_core::soundness_is_kept;
use machine_meaning::machine::MOST_EVENTS;
use plain::listed::Listed;
use proc_library::library::ProcLibrary;
use session_input::event::Event;
use std::alloc::Global;

/// Where the initiator of a number is.
fn place_of(initiators: &[Initiator], number: u8) -> Option<usize>
    ensures some { IfSome result (IsSeat initiators.now number) }
    ensures none { IfNone result (All (λ x. x.number ≢ number) initiators.now) }
{
    for (place, x) in initiators.iter().enumerate() {
        if x.number == number {
            return Some(place);
        }
    }
    None
}

/// An initiator acts once.
fn turn<Q: RecordStore>(
    alloc: Global,
    state: &mut State<Q>,
    profile: &Profile<'_>,
    number: u8,
    room: &mut Vec<Entry>,
) -> Result<Listed<Entry>, ApplyFault>
    requires { IsKept Q.queue (config_in Q.queue profile.now state.old) state.old }
    ensures done { EventDone Q.queue profile.now state.old result state.new (λ w. TurnsSo state.old.parts.store w number) }
    ensures refusal { RefusesFirst result (Turns (world_under Q.queue profile.now state.old) number) }
    ensures extents { OnOk result (ExtentsFollow state.old.parts.store state.new.parts.store) }
{
    let Some(place) = place_of(state.initiators.as_slice(), number) else {
        return Err(ApplyFault::Refused(Cause::A(EventFault::NoSuchInitiator)));
    };
    if state.initiators[place].running.is_some() {
        go_on_at(alloc, state, profile, place, room)
    } else {
        select_at(alloc, state, profile, place, room)
    }
}

/// An event that is not past the last.
fn happen<Q: RecordStore>(
    alloc: Global,
    state: &mut State<Q>,
    profile: &Profile<'_>,
    units: &UnitNames,
    library: &ProcLibrary,
    event: &Event<'_>,
    room: &mut Vec<Entry>,
) -> Result<Listed<Entry>, ApplyFault>
    requires kept { IsKept Q.queue (config_in Q.queue profile.now state.old) state.old }
    requires named { length units.now ≡ length profile.now.units.now }
    ensures done { EventDoneSo Q.queue profile.now (job_of units.now library.now) event.now state.old result state.new }
    ensures refusal { RefusesFirst result (Does (job_of units.now library.now) (world_under Q.queue profile.now state.old) (meant_by event.now)) }
    ensures extents { OnOk result (ExtentsFollow state.old.parts.store state.new.parts.store) }
{
    match event {
        Event::Read(deck) => read(
            alloc,
            state,
            profile,
            units,
            library,
            deck.get().as_slice(),
            room,
        ),
        Event::Turn(number) => turn(alloc, state, profile, *number, room),
        Event::DeviceEnd(serial) => end_device(alloc, state, profile, *serial),
        Event::Write(class) => write(alloc, state, profile, *class),
        Event::Cancel(job) => cancel(alloc, state, profile, *job),
        Event::Zap {
            record: n,
            offset,
            bytes,
        } => zap(alloc, state, profile, *n, *offset, bytes.get().as_slice()),
        Event::Display => display(alloc, state, profile, room),
        Event::Date(day) => set_date(alloc, state, profile, *day),
    }
}

/// One event. A refusal changes the count of events alone and takes no memory; want of memory changes nothing.
pub(crate) fn apply_in<Q: RecordStore>(
    alloc: Global,
    state: &mut State<Q>,
    profile: &Profile<'_>,
    units: &UnitNames,
    library: &ProcLibrary,
    event: &Event<'_>,
    room: &mut Vec<Entry>,
) -> Result<Listed<Entry>, ApplyFault>
    requires kept { IsKept Q.queue (config_in Q.queue profile.now state.old) state.old }
    requires named { length units.now ≡ length profile.now.units.now }
    ensures answer { AppliesSo Q.queue profile.now (job_of units.now library.now) event.now state.old result state.new }
    ensures refusal { RefusesFirst result (Transition (job_of units.now library.now) (world_under Q.queue profile.now state.old) (meant_by event.now)) }
    ensures unless_refused { KeepsStateIfRefused Q.queue profile.now units.now library.now state.old result state.new }
    ensures memory { KeepsStateWithoutMemory Q.queue profile.now units.now library.now state.old result state.new }
    ensures kept { IsKept Q.queue (config_in Q.queue profile.now state.old) state.new }
    ensures extents { ExtentsFollow state.old.parts.store state.new.parts.store }
{
    soundness_is_kept();
    supplies_are_kept();
    if MOST_EVENTS <= state.events {
        return Err(ApplyFault::Refused(Cause::A(EventFault::PastLimit)));
    }
    state.events += 1;
    match happen(alloc, state, profile, units, library, event, room) {
        Ok(lines) => Ok(lines),
        Err(ApplyFault::Refused(cause)) => Err(ApplyFault::Refused(cause)),
        Err(ApplyFault::Memory) => {
            state.events -= 1;
            Err(ApplyFault::Memory)
        }
    }
}
