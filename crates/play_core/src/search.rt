//! Which events are added to a session.
ghost use Rattle.std.specs.Prelude.{◌≡◌, [], IfOk};
ghost use Rattle.session_core.specs.Sessions.{session_behind};
ghost use Rattle.play_core.specs.Playing.{AreFound};
ghost use Rattle.play_core.specs.Searching.{PlaysMachine};

use crate::giving::{Added, has_room};
use crate::replaying::replay;
use crate::rounds::play_rounds;
use crate::waits::Waits;
use chain_store::store::ChainStore;
use run_options::Options;
use sched_core::system::System;
use session_core::SessionFault;
use session_core::open::{Opened, open, start};
use session_text::statement::Statement;
use std::alloc::{AllocError, Global};

/// The classes, by their byte.
static CLASSES: [u8; 36] = *b"ABCDEFGHIJKLMNOPQRSTUVWXYZ0123456789";

/// Whether an initiator selects from the class.
fn is_taken(system: &System<'_, ChainStore>, class: u8) -> bool {
    for place in 0..system.initiator_count() {
        if let Some(x) = system.initiator_at(place) {
            if x.classes.as_slice().contains(&class) {
                return true;
            }
        }
    }
    false
}

/// Notes what waits of a class: its first job, and its output.
fn note_class(
    system: &System<'_, ChainStore>,
    waits: &mut Vec<Waits>,
    class: u8,
) -> Result<(), AllocError> {
    if let Some(job) = system.next_of(class) {
        if is_taken(system, class) {
            waits.push(Waits::Initiator { job, class })?;
        } else {
            waits.push(Waits::Class { job, class })?;
        }
    }
    if system.has_output(class) {
        waits.push(Waits::Output { class })?;
    }
    Ok(())
}

/// Notes what waits beside jobs at initiators.
fn note_rest(system: &System<'_, ChainStore>, waits: &mut Vec<Waits>) -> Result<(), AllocError> {
    for class in CLASSES.iter() {
        note_class(system, waits, *class)?;
    }
    if !has_room(system) {
        waits.push(Waits::Limit)?;
    }
    Ok(())
}

/// Gives a machine the events that a session has itself, and then those that are added. With `None` the session has a fault.
fn play_machine(
    alloc: Global,
    rest: &[Statement<'_>],
    system: &mut System<'_, ChainStore>,
) -> Result<Option<Added>, AllocError>
    ensures { IfOk result (λ found. PlaysMachine system.old rest.now found) }
{
    let all = replay(rest, system)?;
    if !all {
        return Ok(None);
    }
    let mut added = Added::nothing(alloc);
    play_rounds(system, &mut added)?;
    note_rest(system, &mut added.waits)?;
    Ok(Some(added))
}

/// The events that are added to a session, and what waits then. With `None` the session has a fault.
pub(crate) fn find(
    alloc: Global,
    statements: &[Statement<'_>],
    options: Options,
) -> Result<Option<Added>, AllocError>
    ensures { IfOk result (λ found. AreFound options (session_behind [] statements.now) found) }
{
    let opened = match open(alloc, statements) {
        Ok(opened) => opened,
        Err(SessionFault::Stopped(_, _)) => return Ok(None),
        Err(_) => return Err(AllocError),
    };
    let Opened {
        store,
        fixed,
        queue,
        from,
        late: _,
    } = opened;
    let mut system = start(alloc, store, queue, &fixed, options)?;
    let (_, rest) = statements.split_at(from);
    let played = play_machine(alloc, rest, &mut system);
    system.close();
    let found = played?;
    Ok(found)
}
