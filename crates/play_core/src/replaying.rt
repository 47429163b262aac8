//! The events that a session has itself.
ghost use Rattle.std.specs.Prelude.{◌≡◌, IfOk, OnOk, replicate, true};
ghost use Rattle.std.specs.List.{list_all};
ghost use Rattle.session_core.specs.Sessions.{events_of, has_events};
ghost use Rattle.play_core.specs.Giving.{Leads};

use chain_store::store::ChainStore;
use sched_core::system::System;
use session_input::event::Event;
use session_text::statement::{Says, Statement};
use std::alloc::AllocError;

/// Gives an event so many times.
fn repeat(
    system: &mut System<'_, ChainStore>,
    event: &Event<'_>,
    times: u16,
) -> Result<(), AllocError>
    ensures { OnOk result (Leads system.old (replicate times event.now) system.new) }
{
    for done in 0..times {
        let _ = done;
        system.apply_shown(event)?;
    }
    Ok(())
}

/// Gives the events of the statements, up to one that is none. Tells whether all are events.
pub(crate) fn replay(
    statements: &[Statement<'_>],
    system: &mut System<'_, ChainStore>,
) -> Result<bool, AllocError>
    ensures all { IfOk result (λ all. all ≡ list_all (λ s. has_events s.says) statements.now) }
    ensures leads { IfOk result (λ all. all ≡ true → Leads system.old (events_of statements.now) system.new) }
{
    for statement in statements {
        match &statement.says {
            Says::Events(event, times) => repeat(system, event, *times)?,
            _ => return Ok(false),
        }
    }
    Ok(true)
}
