//! The events of a session, driven one after another.
ghost use Rattle.std.specs.Prelude.{◌≡◌, IfOk, List};
ghost use Rattle.cb_meaning.specs.declared.layout.TheConstants.{LAYOUT_2, QUEUE_LAYOUT};
ghost use Rattle.cb_queue.specs.RecordQueues.{empty_queue};
ghost use Rattle.queue_images.specs.declared.image.WaitingJob.{WaitingJob};
ghost use Rattle.queue_images.specs.Carrying.{AreWaiting};
ghost use Rattle.sched_core.specs.Starting.{IsForMachine};

use boxed_core::Boxed;
use cb_meaning::layout::QUEUE_LAYOUT;
use cb_queue::list_store::ListStore;
use cb_queue::store::RecordStore;
use config_core::config::Config;
use jcl_plan::entry::Entry;
use plain::draft::Draft;
use plain::listed::Listed;
use queue_images::migrate::{Migrated, migrate_queue};
use record_rows::image::Image;
use run_options::{Options, RiskChoice};
use sched_core::start::queue_layout_is_for_machine;
use sched_core::system::System;
use session_input::event::Event;
use session_text::parse::statements;
use session_text::statement::{Ending, Says, Statement};
use std::alloc::{AllocError, Global};

/// The same event. A deck is read once.
fn again<'a>(alloc: Global, event: &Event<'_>) -> Result<Option<Event<'a>>, AllocError> {
    let same = match event {
        Event::Read(_) => None,
        Event::Turn(number) => Some(Event::Turn(*number)),
        Event::DeviceEnd(serial) => Some(Event::DeviceEnd(*serial)),
        Event::Write(class) => Some(Event::Write(*class)),
        Event::Cancel(job) => Some(Event::Cancel(*job)),
        Event::Zap {
            record,
            offset,
            bytes,
        } => Some(Event::Zap {
            record: *record,
            offset: *offset,
            bytes: Boxed::new(alloc, *bytes.get())?,
        }),
        Event::Display => Some(Event::Display),
        Event::Date(day) => Some(Event::Date(*day)),
    };
    Ok(same)
}

/// An event so many times.
fn push_times<'a>(
    alloc: Global,
    events: &mut Vec<Event<'a>>,
    event: Event<'a>,
    times: u16,
) -> Result<(), AllocError> {
    for _ in 1..times {
        if let Some(same) = again(alloc, &event)? {
            events.push(same)?;
        }
    }
    events.push(event)?;
    Ok(())
}

/// Adds what a session configures, and gathers its events. A statement that is refused is left out.
fn gather<'a>(
    alloc: Global,
    config: &mut Config,
    events: &mut Vec<Event<'a>>,
    statements: Vec<Statement<'a>>,
) -> Result<(), AllocError> {
    for statement in statements {
        match statement.says {
            Says::Config {
                statement: says,
                ..
            } => {
                let Ok(()) = config.add(says.get()) else {
                    return Err(AllocError);
                };
            }
            Says::Events(event, times) => push_times(alloc, events, event, times)?,
            Says::Refused(_) => {}
        }
    }
    Ok(())
}

/// The queue of a machine that begins: no record is in use.
fn first_queue(alloc: Global) -> Result<ListStore, AllocError>
    ensures empty { IfOk result (λ queue. queue ≡ empty_queue QUEUE_LAYOUT) }
    ensures layout { IfOk result (λ queue. IsForMachine queue.layout) }
{
    queue_layout_is_for_machine();
    let queue = ListStore::new(alloc, QUEUE_LAYOUT)?;
    Ok(queue)
}

/// The lines of events.
fn push_entries(text: &mut Draft, entries: &[Listed<Entry>]) -> Result<(), AllocError> {
    for lines in entries {
        for line in lines.as_slice() {
            line.write_to(text)?;
        }
    }
    text.keep();
    Ok(())
}

/// Drives the events, and once more the first for which memory was wanting with those behind it. Then takes the machine apart.
fn lines_of<Q: RecordStore + Drop>(
    alloc: Global,
    mut system: System<'_, Q>,
    events: &[Event<'_>],
) -> Result<Draft, AllocError> {
    let first = system.drive(events);
    let (_, rest) = events.split_at(first.done);
    let then = system.drive(rest);
    system.close();
    let mut text = Draft::empty(alloc);
    push_entries(&mut text, first.entries.as_slice())?;
    push_entries(&mut text, then.entries.as_slice())?;
    Ok(text)
}

/// Drives the events from a machine in which nobody waits.
fn drive(
    alloc: Global,
    config: Config,
    options: Options,
    events: &[Event<'_>],
) -> Result<Draft, AllocError> {
    let (store, fixed) = config.take_apart()?;
    let queue = first_queue(alloc)?;
    let system = System::new(
        alloc,
        store,
        queue,
        &fixed,
        options.risk == RiskChoice::Refuse,
        usize::from(options.views),
        options.explains,
    )?;
    lines_of(alloc, system, events)
}

/// Drives the events from a machine with the jobs that were carried over.
fn drive_on(
    alloc: Global,
    config: Config,
    options: Options,
    migrated: Migrated,
    events: &[Event<'_>],
) -> Result<Draft, AllocError>
    requires waiting { (jobs : List WaitingJob) × AreWaiting jobs migrated.store.queue migrated.kept.items migrated.waiting.items migrated.last }
    requires layout { migrated.store.queue.layout ≡ LAYOUT_2 }
{
    queue_layout_is_for_machine();
    let Migrated {
        store: queue,
        kept: _,
        dropped: _,
        waiting,
        last,
    } = migrated;
    let (store, fixed) = config.take_apart()?;
    let Ok(system) = System::open_queue(
        alloc,
        store,
        queue,
        waiting.as_slice(),
        last,
        &fixed,
        options.risk == RiskChoice::Refuse,
        usize::from(options.views),
        options.explains,
    ) else {
        return Err(AllocError);
    };
    lines_of(alloc, system, events)
}

/// The lines of a session's events, from a machine with the jobs of an image that can be read with so many lists of volumes.
pub(crate) fn list_carried_on(
    alloc: Global,
    options: Options,
    image: &Image,
    units: u16,
    text: &[u8],
) -> Result<Draft, AllocError> {
    let read = statements(alloc, text, Ending::Whole)?;
    let mut config = Config::new(alloc);
    let mut events = Vec::new(alloc);
    gather(alloc, &mut config, &mut events, read.into_vec())?;
    match migrate_queue(alloc, image.bytes.as_slice(), image.jobs.as_slice(), units) {
        Ok(migrated) => drive_on(alloc, config, options, migrated, events.as_slice()),
        Err(_) => Err(AllocError),
    }
}

/// The listing of a session whose events are driven one after another.
pub(crate) fn list_driven(
    alloc: Global,
    options: Options,
    text: &[u8],
) -> Result<Draft, AllocError> {
    let read = statements(alloc, text, Ending::Whole)?;
    let mut config = Config::new(alloc);
    let mut events = Vec::new(alloc);
    gather(alloc, &mut config, &mut events, read.into_vec())?;
    drive(alloc, config, options, events.as_slice())
}
