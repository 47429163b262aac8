//! The events that change no job at an initiator: a device's end, a writer's line, a date, and what is shown.
ghost use Rattle.std.specs.Prelude.{◌≡◌, ◌≢◌, ◌≤◌, Err, filter, is_some, length};
ghost use Rattle.jcl_plan.specs.declared.fault.Cause.{Cause};
ghost use Rattle.world_meaning.specs.Devices.{EndsDevice, Writes};
ghost use Rattle.world_meaning.specs.Displays.{SetsDate};
ghost use Rattle.world_meaning.specs.Transitions.{Shows};
ghost use Rattle.sched_core.specs.Done.{EventDone};
ghost use Rattle.sched_core.specs.Events.{RefusesFirst};
ghost use Rattle.sched_core.specs.Fits.{IsKept};
ghost use Rattle.sched_core.specs.Machines.{config_in, world_under};
ghost use Rattle.sched_core.specs.declared.fault.ApplyFault.TheVariants.{Refused};

use crate::fault::ApplyFault;
use crate::state::{Initiator, State};
use cb_queue::store::RecordStore;
use date_core::calendar::date_of;
use init_core::running::Profile;
use jcl_plan::day::Day;
use jcl_plan::entry::Entry;
use jcl_plan::fault::Cause;
use jname_core::serial::Serial;
use machine_core::events;
use plain::listed::Listed;
use queued_job::laws::waiting_are_listed;
use std::alloc::Global;
use std::mem;

/// The operation under way on a volume ends.
pub(crate) fn end_device<Q: RecordStore>(
    alloc: Global,
    state: &mut State<Q>,
    profile: &Profile<'_>,
    serial: Serial,
) -> Result<Listed<Entry>, ApplyFault>
    requires { IsKept Q.queue (config_in Q.queue profile.now state.old) state.old }
    ensures done { EventDone Q.queue profile.now state.old result state.new (λ w. EndsDevice w serial) }
    ensures refusal { RefusesFirst result (EndsDevice (world_under Q.queue profile.now state.old) serial) }
    ensures store { state.new.parts.store ≡ state.old.parts.store }
{
    match events::end_device(&mut state.parts, profile.volumes, serial) {
        Ok(()) => Ok(Listed::empty(alloc)),
        Err(fault) => Err(ApplyFault::Refused(Cause::A(fault))),
    }
}

/// A writer writes a line of its class, if there is one.
pub(crate) fn write<Q: RecordStore>(
    alloc: Global,
    state: &mut State<Q>,
    profile: &Profile<'_>,
    class: u8,
) -> Result<Listed<Entry>, ApplyFault>
    requires { IsKept Q.queue (config_in Q.queue profile.now state.old) state.old }
    ensures done { EventDone Q.queue profile.now state.old result state.new (λ w. Writes w class) }
    ensures never_refused { (cause : Cause) → result ≢ Err (Refused cause) }
    ensures store { state.new.parts.store ≡ state.old.parts.store }
{
    let mut lines = Vec::with_capacity(alloc, 1)?;
    let Some((job, written)) = events::write(&mut state.parts, class) else {
        return Ok(Listed::new(lines));
    };
    lines.push_reserved(Entry::Writer {
        class,
        job,
        written,
    });
    Ok(Listed::new(lines))
}

/// There is a new date.
pub(crate) fn set_date<Q: RecordStore>(
    alloc: Global,
    state: &mut State<Q>,
    profile: &Profile<'_>,
    day: Day,
) -> Result<Listed<Entry>, ApplyFault>
    requires { IsKept Q.queue (config_in Q.queue profile.now state.old) state.old }
    ensures done { EventDone Q.queue profile.now state.old result state.new (λ w. SetsDate w day) }
    ensures never_refused { (cause : Cause) → result ≢ Err (Refused cause) }
    ensures store { state.new.parts.store ≡ state.old.parts.store }
{
    let mut lines = Vec::with_capacity(alloc, 1)?;
    let date = date_of(day);
    lines.push_reserved(Entry::Date {
        year: date.year,
        day: date.of_year,
    });
    state.parts.date = day;
    Ok(Listed::new(lines))
}

/// How many initiators have a job.
fn count_busy(initiators: &[Initiator]) -> usize
    ensures count { result ≡ length (filter (λ x. is_some x.running) initiators.now) }
    ensures few { result ≤ length initiators.now }
{
    let all = initiators.len();
    match initiators.split_first() {
        None => 0,
        Some((x, others)) => {
            let behind = count_busy(others);
            if x.running.is_some() && behind < all {
                behind + 1
            } else {
                behind
            }
        }
    }
}

/// The volumes and the queue are shown. The lines are in the room, where that is enough.
pub(crate) fn display<Q: RecordStore>(
    alloc: Global,
    state: &State<Q>,
    profile: &Profile<'_>,
    room: &mut Vec<Entry>,
) -> Result<Listed<Entry>, ApplyFault>
    requires { IsKept Q.queue (config_in Q.queue profile.now state.now) state.now }
    ensures done { EventDone Q.queue profile.now state.now result state.now (λ w. Shows w) }
    ensures never_refused { (cause : Cause) → result ≢ Err (Refused cause) }
{
    waiting_are_listed();
    let running = count_busy(state.initiators.as_slice());
    let lines = events::show(&state.parts, running, mem::replace(room, Vec::new(alloc)))?;
    Ok(lines)
}
