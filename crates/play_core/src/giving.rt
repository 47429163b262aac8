//! An event is given to a machine, and what it writes is looked at.
ghost use Rattle.std.specs.Prelude.{◌≡◌, ◌+◌, ◌<◌, ◌≤◌, [], All, IfOk, IfSome, OnOk, false, length, true};
ghost use Rattle.sched_core.specs.Systems.{IsNext, Steps, world_of};
ghost use Rattle.machine_meaning.specs.declared.machine.TheConstants.{MOST_EVENTS};
ghost use Rattle.play_core.specs.Given.{IsTaken, event_of};
ghost use Rattle.play_core.specs.Giving.{Adds, IsWait, SaysWait};

use crate::given::Given;
use crate::waits::Waits;
use chain_store::store::ChainStore;
use jcl_plan::entry::{Entry, JobLine};
use machine_meaning::machine::MOST_EVENTS;
use plain::listed::Listed;
use sched_core::system::System;
use std::alloc::{AllocError, Global};

/// What is added to a session, and what waited in the last round.
#[derive(Drop)]
pub(crate) struct Added {
    pub(crate) given: Vec<Given>,
    pub(crate) waits: Vec<Waits>,
}

impl Added {
    pub(crate) fn nothing(alloc: Global) -> Added
        ensures { result.given.items ≡ [] }
    {
        Added {
            given: Vec::new(alloc),
            waits: Vec::new(alloc),
        }
    }
}

/// Whether the machine takes an event more.
pub(crate) fn has_room(system: &System<'_, ChainStore>) -> bool
    ensures yes { result ≡ true → (world_of system.now).events < MOST_EVENTS }
    ensures no { result ≡ false → MOST_EVENTS ≤ (world_of system.now).events }
{
    system.event_count() < usize::from(MOST_EVENTS)
}

/// Gives an event to the machine, and tells its lines. With an `Err` nothing is claimed.
pub(crate) fn give(
    system: &mut System<'_, ChainStore>,
    given: &mut Vec<Given>,
    next: Given,
) -> Result<Listed<Entry>, AllocError>
    requires { IsTaken (world_of system.old) next }
    ensures adds { OnOk result (Adds system.old given.old.items system.new given.new.items) }
    ensures more { OnOk result (length given.new.items ≡ length given.old.items + 1) }
    ensures step { IfOk result (λ lines. Steps system.old (event_of next) lines (world_of system.new)) }
    ensures next { IsNext system.old system.new }
{
    system.is_whole();
    given.reserve(1)?;
    let lines = system.apply_shown(&next.event())?;
    given.push_reserved(next);
    Ok(lines)
}

/// What a line of a job says that waits, or `None` where it says something else.
fn wait_in(job: u16, line: &JobLine) -> Option<Waits>
    ensures { IfSome result (λ w. SaysWait line.now) }
{
    match line {
        JobLine::WaitNames { holder, name } => Some(Waits::Names {
            job,
            name: *name,
            holder: *holder,
        }),
        JobLine::WaitSpace(serial) => Some(Waits::Space {
            job,
            serial: *serial,
        }),
        _ => None,
    }
}

fn wait_of(entry: &Entry) -> Option<Waits>
    ensures { IfSome result (λ w. IsWait entry.now) }
{
    match entry {
        Entry::Job(job, line) => wait_in(*job, line),
        _ => None,
    }
}

/// Notes what waits by these lines, and tells whether they say nothing else, and nothing else was said before.
pub(crate) fn note(
    waits: &mut Vec<Waits>,
    lines: &[Entry],
    before: bool,
) -> Result<bool, AllocError>
    ensures { IfOk result (λ all. all ≡ true → (before ≡ true) × All IsWait lines.now) }
{
    let mut all = before;
    for entry in lines {
        match wait_of(entry) {
            Some(wait) => waits.push(wait)?,
            None => all = false,
        }
    }
    Ok(all)
}
