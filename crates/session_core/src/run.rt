//! The events of the statements, and their lines.
ghost use Rattle.std.specs.Prelude.{◌≡◌, Bool, OnErr, OnOk, false, is_some, replicate, true};
ghost use Rattle.session_input.specs.declared.statement.ConfigStatement.{ConfigStatement};
ghost use Rattle.session_core.specs.Leaving.{IsLeft, ListsWhole, WritesWhole};
ghost use Rattle.session_core.specs.Opening.{IsReadyToRun};
ghost use Rattle.session_core.specs.Outcomes.{WritesSession, is_write_fault};
ghost use Rattle.session_core.specs.Running.{AreApplied, AreAppliedInPart, IsApplied, StatementRunsIn, options_in};
ghost use Rattle.session_core.specs.Streams.{sink_state};
ghost use Rattle.session_text.specs.declared.statement.Says.TheVariants as says;
ghost use Rattle.sched_core.specs.Systems.{IsNext, IsSameFixed};

use crate::listing::{Listing, MOST_HELD, Mark};
use crate::open::{Opened, open, start};
use crate::stream::Sink;
use crate::{SessionEnd, SessionFault};
use chain_store::store::ChainStore;
use jcl_plan::entry::Entry;
use run_options::Options;
use sched_core::fault::ApplyFault;
use sched_core::system::System;
use session_input::event::Event;
use session_text::fault::Fault;
use session_text::statement::{Says, Statement};
use std::alloc::{AllocError, Global};
use std::io::Write;

/// Applies an event and lists its lines, or lists nothing.
fn run_event(
    system: &mut System<'_, ChainStore>,
    event: &Event<'_>,
    listing: &mut Listing,
) -> Result<(), AllocError>
    ensures ok { OnOk result (IsApplied system.old event.now system.new listing.old.text.kept listing.new.text.kept) }
    ensures err { OnErr result (listing.new.text.kept ≡ listing.old.text.kept) }
    ensures left { OnErr result (IsLeft system.old system.new) }
    ensures next { IsNext system.old system.new }
    ensures marks { listing.new.marks.items ≡ listing.old.marks.items }
{
    match system.apply(event, &mut listing.room) {
        Ok(entries) => listing.take(entries),
        Err(ApplyFault::Refused(cause)) => listing.add(&[Entry::Refused(cause)]),
        Err(ApplyFault::Memory) => Err(AllocError),
    }
}

/// Applies an event so many times and lists its lines. With an `Err` it lists those of the first times.
fn run_events(
    system: &mut System<'_, ChainStore>,
    event: &Event<'_>,
    times: u16,
    listing: &mut Listing,
) -> Result<(), AllocError>
    ensures ok { OnOk result (AreApplied system.old (replicate times event.now) system.new listing.old.text.kept listing.new.text.kept) }
    ensures err { OnErr result (AreAppliedInPart system.old event.now times listing.old.text.kept listing.new.text.kept) }
    ensures left { ListsWhole system.old system.new listing.old.text.kept listing.new.text.kept }
    ensures fixed { IsSameFixed system.old system.new }
    ensures marks { listing.new.marks.items ≡ listing.old.marks.items }
{
    for done in 0..times {
        let _ = done;
        run_event(system, event, listing)?;
    }
    Ok(())
}

/// Runs a statement behind the configuration, and lists its lines.
pub fn run_statement(
    statement: &Statement<'_>,
    late: Option<Fault>,
    system: &mut System<'_, ChainStore>,
    listing: &mut Listing,
) -> Result<(), SessionFault>
    requires late { (s : ConfigStatement) (has_end : Bool) → statement.now.says ≡ says.Config s has_end → is_some late ≡ true }
    ensures runs { StatementRunsIn late statement.now system.old listing.old result system.new listing.new }
    ensures left { ListsWhole system.old system.new listing.old.text.kept listing.new.text.kept }
    ensures fixed { IsSameFixed system.old system.new }
    ensures writes_none { is_write_fault result ≡ false }
{
    let line = statement.line;
    match &statement.says {
        Says::Events(event, times) => {
            let start = listing.text.len();
            let Ok(()) = listing.marks.push(Mark { line, start }) else {
                return Err(SessionFault::Memory);
            };
            match run_events(system, event, *times, listing) {
                Ok(()) => Ok(()),
                Err(_) => Err(SessionFault::Memory),
            }
        }
        Says::Refused(fault) => Err(SessionFault::Stopped(*fault, line)),
        Says::Config { .. } => match late {
            Some(fault) => Err(SessionFault::Stopped(fault, line)),
            None => unreachable!(),
        },
    }
}

/// Runs the statements from the first event on, with the options that the machine was started with, and writes their lines. Unless a write fails, the lines of
/// all events that were done are written, but for those of one for which no memory was left: the machine then is a step further.
pub fn run_from<W: Write>(
    alloc: Global,
    statements: &[Statement<'_>],
    from: usize,
    late: Option<Fault>,
    system: &mut System<'_, ChainStore>,
    sink: &mut Sink<'_, W>,
) -> Result<SessionEnd, SessionFault>
    requires configured { IsReadyToRun statements.now from late system.old }
    requires unfailed { sink.old.failed ≡ false }
    ensures outcome { WritesSession (options_in system.old.config) (sink_state W.contents sink.old) (sink_state W.contents sink.new) statements.now result }
    ensures left { is_write_fault result ≡ false → WritesWhole (sink_state W.contents sink.old) (sink_state W.contents sink.new) system.old system.new }
    ensures failed { sink.new.failed ≡ is_write_fault result }
    ensures same_writer { sink.new.writer.ghost_name ≡ sink.old.writer.ghost_name }
{
    system.is_whole();
    let mut listing = Listing::empty(alloc);
    let (_, rest) = statements.split_at(from);
    for statement in rest {
        match run_statement(statement, late, system, &mut listing) {
            Ok(()) => {}
            Err(fault) => return listing.end(sink, Err(fault)),
        }
        if listing.text.len() < MOST_HELD {
            continue;
        }
        match listing.write_out(sink) {
            Ok(()) => {}
            Err(fault) => return Err(fault),
        }
    }
    listing.end(sink, Ok(SessionEnd))
}

/// Runs the statements up to the first fault with these options, and writes their lines.
pub fn run<W: Write>(
    alloc: Global,
    statements: &[Statement<'_>],
    options: Options,
    sink: &mut Sink<'_, W>,
) -> Result<SessionEnd, SessionFault>
    requires { sink.old.failed ≡ false }
    ensures outcome { WritesSession options (sink_state W.contents sink.old) (sink_state W.contents sink.new) statements.now result }
    ensures failed { sink.new.failed ≡ is_write_fault result }
    ensures same_writer { sink.new.writer.ghost_name ≡ sink.old.writer.ghost_name }
{
    let opened = match open(alloc, statements) {
        Ok(opened) => opened,
        Err(fault) => return Err(fault),
    };
    let Opened {
        store,
        fixed,
        queue,
        from,
        late,
    } = opened;
    let Ok(mut system) = start(alloc, store, queue, &fixed, options) else {
        return Err(SessionFault::Memory);
    };
    let outcome = run_from(alloc, statements, from, late, &mut system, sink);
    system.close();
    outcome
}
