//! What the program ends with: a status, and what it says on standard error.
ghost use Rattle.std.specs.Prelude.{◌≡◌, Some, false};
ghost use Rattle.mvt_main.specs.Programs.{ReportsRun, reported, text_of};

use command_line::ended::{ALL_READ, SESSION_FAULT, WANT_OF_MEMORY};
use run_options::Options;
use session_core::stream::{Sink, Source};
use session_core::{SessionEnd, SessionFault, run_streams};
use std::alloc::Global;
use std::fmt;
use std::io::{Read, Write};

/// What is said on standard error.
#[derive(Clone, Copy, PartialEq, Eq)]
pub enum Message {
    Nothing,
    /// A fault of the session by its number, n of `Sn`, and its line, which counts from 1.
    Fault(u8, usize),
    OutOfMemory,
}

impl fmt::Display for Message {
    ghost output = { λ m. Some (text_of m) };

    fn fmt<W: fmt::Write>(&self, f: &mut fmt::Formatter<W>) -> fmt::Result {
        match self {
            Message::Nothing => Ok(()),
            Message::Fault(number, line) => write!(f, "session fault S{number} at line {line}"),
            Message::OutOfMemory => f.write_str("out of memory"),
        }
    }
}

/// The status of a session's end, and its message.
pub fn report(outcome: Result<SessionEnd, SessionFault>) -> (u8, Message)
    ensures { result ≡ reported outcome }
{
    match outcome {
        Ok(SessionEnd) => (ALL_READ, Message::Nothing),
        Err(fault) => match fault.number_and_line() {
            Some((number, line)) => (SESSION_FAULT, Message::Fault(number, line)),
            None => (WANT_OF_MEMORY, Message::OutOfMemory),
        },
    }
}

/// Runs the session that the source gives with these options, writes its listing to the sink, and tells the status and the message of its end.
pub fn session_report<R: Read, W: Write>(
    alloc: Global,
    source: &mut Source<'_, R>,
    sink: &mut Sink<'_, W>,
    options: Options,
) -> (u8, Message)
    requires source_unfailed { source.old.failed ≡ false }
    requires sink_unfailed { sink.old.failed ≡ false }
    ensures { ReportsRun R.remaining W.contents options source.old source.new sink.old sink.new result }
{
    let outcome = run_streams(alloc, source, sink, options);
    report(outcome)
}
