//! The session with the events that are added to it.
ghost use Rattle.std.specs.Prelude.{◌≡◌, [], false, is_some, true};
ghost use Rattle.std.specs.Io.KnownBytes.{Appends};
ghost use Rattle.session_core.specs.Sessions.{session_behind};
ghost use Rattle.play_core.specs.Playing.{ExtendsStreams, IsFaultTold};

use crate::lines::with_events;
use crate::search::find;
use crate::waits::Waits;
use run_options::Options;
use session_core::run::run;
use session_core::stream::{Sink, Source};
use session_core::transfer::{read_text, write_text};
use session_core::{MOST_BYTES, SessionFault};
use session_text::fault::Fault;
use session_text::parse::statements;
use session_text::statement::Statement;
use std::alloc::Global;
use std::io::{self, Read, Write};

/// What the session with its events came to.
#[derive(Drop)]
pub enum Extended {
    /// It was written, and this waits then.
    Written(Vec<Waits>),
    /// The writer took a part of it alone.
    Cut,
    /// The session has this fault, at this line, which counts from 1. Nothing was written.
    HasFault(Fault, usize),
    /// It would be longer than a session may be. Nothing was written.
    TooLong,
    /// Nothing was written.
    OutOfMemory,
}

/// The fault of a session that has one.
fn fault_of(alloc: Global, statements: &[Statement<'_>], options: Options) -> Extended
    ensures { IsFaultTold (session_behind [] statements.now) result }
{
    let mut nothing = io::sink();
    let mut sink = Sink::new(&mut nothing);
    match run(alloc, statements, options, &mut sink) {
        Err(SessionFault::Stopped(fault, line)) => Extended::HasFault(fault, line),
        _ => Extended::OutOfMemory,
    }
}

/// Reads a session of a source, and writes it to a sink with the lines of the events that are added to it.
pub fn extend_streams<R: Read, W: Write>(
    alloc: Global,
    source: &mut Source<'_, R>,
    sink: &mut Sink<'_, W>,
    options: Options,
) -> Extended
    requires source_unfailed { source.old.failed ≡ false }
    requires sink_unfailed { sink.old.failed ≡ false }
    ensures { ExtendsStreams R.remaining W.contents options source.old source.new sink.old sink.new result }
{
    let Ok(input) = read_text(alloc, source) else {
        return Extended::OutOfMemory;
    };
    let Ok(statements) = statements(alloc, input.text.as_slice(), input.ending) else {
        return Extended::OutOfMemory;
    };
    let Ok(found) = find(alloc, statements.as_slice(), options) else {
        return Extended::OutOfMemory;
    };
    let Some(added) = found else {
        return fault_of(alloc, statements.as_slice(), options);
    };
    let Ok(text) = with_events(alloc, input.text.as_slice(), added.given.as_slice()) else {
        return Extended::OutOfMemory;
    };
    if text.len() > MOST_BYTES {
        return Extended::TooLong;
    }
    match write_text(sink, text.as_slice()) {
        Ok(()) => Extended::Written(added.waits),
        Err(_) => Extended::Cut,
    }
}
