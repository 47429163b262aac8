//! A session is run, and what is seen of it is kept.
ghost use Rattle.std.specs.Prelude.{◌≡◌, false};
ghost use Rattle.cb_meaning.specs.declared.layout.TheConstants.{QUEUE_LAYOUT};
ghost use Rattle.cb_queue.specs.RecordQueues.{empty_queue};
ghost use Rattle.config_core.specs.Configs.{Configuration};
ghost use Rattle.config_core.specs.Configured.{IsConfigured};
ghost use Rattle.config_core.specs.Starts.{IsTakenApart};
ghost use Rattle.session_core.specs.Opening.{IsOpened};

use crate::watch::Watch;
use chain_store::store::ChainStore;
use config_core::start::Fixed;
use history_core::history::History;
use jcl_plan::entry::Entry;
use run_options::Options;
use sched_core::system::System;
use session_core::open::{Opened, open, start};
use session_core::stream::Source;
use session_core::transfer::read_text;
use session_core::{SessionEnd, SessionFault};
use session_input::event::Event;
use session_input::statement::ConfigStatement;
use session_text::fault::Fault;
use session_text::parse::statements;
use session_text::statement::{Says, Statement};
use shared_core::store::SharedStore;
use std::alloc::{AllocError, Global};
use std::io::Read;

/// Whether an event that wrote these lines did anything.
fn acts(event: &Event<'_>, lines: &[Entry]) -> bool {
    match event {
        Event::DeviceEnd(_) | Event::Zap { .. } => true,
        _ => !lines.is_empty(),
    }
}

/// Applies an event so many times.
fn run_events(
    alloc: Global,
    system: &mut System<'_, ChainStore>,
    event: &Event<'_>,
    times: u16,
    watch: &mut Watch,
    history: &mut History,
) -> Result<(), AllocError> {
    for _ in 0..times {
        let lines = system.apply_shown(event)?;
        let acts = acts(event, lines.as_slice());
        watch.keep(alloc, system, lines.as_slice(), acts, history)?;
    }
    Ok(())
}

/// Runs the statements behind the configuration, up to the first fault.
fn run_from(
    alloc: Global,
    statements: &[Statement<'_>],
    late: Option<Fault>,
    system: &mut System<'_, ChainStore>,
    history: &mut History,
) -> Result<SessionEnd, SessionFault> {
    let mut watch = Watch::new(alloc);
    for statement in statements {
        match &statement.says {
            Says::Events(event, times) => {
                let Ok(()) = run_events(alloc, system, event, *times, &mut watch, history) else {
                    return Err(SessionFault::Memory);
                };
            }
            Says::Refused(fault) => return Err(SessionFault::Stopped(*fault, statement.line)),
            Says::Config { .. } => {
                if let Some(fault) = late {
                    return Err(SessionFault::Stopped(fault, statement.line));
                }
            }
        }
    }
    Ok(SessionEnd)
}

/// Starts a machine of these parts, and runs the statements behind the configuration.
fn run_on(
    alloc: Global,
    parts: (SharedStore, ChainStore),
    fixed: &Fixed,
    statements: &[Statement<'_>],
    late: Option<Fault>,
    options: Options,
    history: &mut History,
) -> Result<SessionEnd, SessionFault>
    requires configured { (c : Configuration) × IsConfigured c × IsTakenApart c parts.0 fixed.now }
    requires empty { parts.1.queue ≡ empty_queue QUEUE_LAYOUT }
{
    let (store, queue) = parts;
    let Ok(mut system) = start(alloc, store, queue, fixed, options) else {
        return Err(SessionFault::Memory);
    };
    let outcome = run_from(alloc, statements, late, &mut system, history);
    system.close();
    outcome
}

/// Keeps the volumes of a configuration.
fn add_volumes(
    alloc: Global,
    statements: &[Statement<'_>],
    history: &mut History,
) -> Result<(), AllocError> {
    for statement in statements {
        if let Says::Config { statement, .. } = &statement.says {
            if let ConfigStatement::Volume { serial, tracks, .. } = statement.get() {
                history.add_volume(alloc, *serial, *tracks)?;
            }
        }
    }
    Ok(())
}

/// Runs the statements of a session that is opened.
fn run_opened(
    alloc: Global,
    opened: Opened,
    statements: &[Statement<'_>],
    options: Options,
    history: &mut History,
) -> Result<SessionEnd, SessionFault>
    requires { IsOpened statements.now opened }
{
    let Opened {
        store,
        fixed,
        queue,
        from,
        late,
    } = opened;
    let (first, rest) = statements.split_at(from);
    let Ok(()) = add_volumes(alloc, first, history) else {
        return Err(SessionFault::Memory);
    };
    run_on(alloc, (store, queue), &fixed, rest, late, options, history)
}

/// Runs these statements.
fn run(
    alloc: Global,
    statements: &[Statement<'_>],
    options: Options,
    history: &mut History,
) -> Result<SessionEnd, SessionFault> {
    match open(alloc, statements) {
        Ok(opened) => run_opened(alloc, opened, statements, options, history),
        Err(fault) => Err(fault),
    }
}

/// Reads a session of a source, runs it with these options, and keeps what is seen of it.
pub(crate) fn run_session<R: Read>(
    alloc: Global,
    source: &mut Source<'_, R>,
    options: Options,
    history: &mut History,
) -> Result<SessionEnd, SessionFault>
    requires { source.old.failed ≡ false }
{
    let Ok(input) = read_text(alloc, source) else {
        return Err(SessionFault::Memory);
    };
    let Ok(statements) = statements(alloc, input.text.as_slice(), input.ending) else {
        return Err(SessionFault::Memory);
    };
    run(alloc, statements.as_slice(), options, history)
}
