//! A session, from the bytes that are read to the bytes that are written.
#![tactic(auto)]

mod configure;
pub mod laws;
pub mod listing;
pub mod open;
pub mod run;
pub mod stream;
pub mod transfer;

ghost use Rattle.std.specs.Prelude.{◌≡◌, ℕ, List, false};
ghost use Rattle.session_core.specs.Failures.{AreTold, TellsCut};
ghost use Rattle.session_core.specs.FaultNumbers.{number_and_line};
ghost use Rattle.session_core.specs.Outcomes.{IsRunOfStreams, IsSession};
ghost use Rattle.session_core.specs.Sessions.{refuses_in, session_of};
ghost use Rattle.session_text.specs.declared.statement.Ending.TheVariants.{ReadFailed};

use crate::stream::{Sink, Source};
use crate::transfer::read_text;
use run_options::{Options, RiskChoice};
use session_text::fault::Fault;
use session_text::parse::statements;
use std::alloc::Global;
use std::io::{Read, Write};
use thiserror::Error;

/// The most bytes of a session.
pub const MOST_BYTES: usize = 1_048_576;

/// Whether a job at risk is refused.
pub(crate) fn refuses(options: Options) -> bool
    ensures { result ≡ refuses_in options }
{
    match options.risk {
        RiskChoice::Run => false,
        RiskChoice::Refuse => true,
    }
}

/// All of the text was read and run.
#[derive(Clone, Copy, PartialEq, Eq)]
pub struct SessionEnd;

/// Why a session ends before its text does. Lines count from 1.
#[derive(Clone, Copy, Debug, PartialEq, Eq, Error)]
pub enum SessionFault {
    /// The first fault, and the first line of its statement.
    #[error("line {1}: {0}")]
    Stopped(Fault, usize),
    /// The first line of the statement whose lines were written.
    #[error("line {0}: the listing cannot be written further")]
    WriteFailed(usize),
    #[error("memory is missing")]
    Memory,
}

impl SessionFault {
    /// Its number, n of `Sn`, and its line.
    pub fn number_and_line(&self) -> Option<(u8, usize)>
        ensures { result ≡ number_and_line self.now }
    {
        match self {
            SessionFault::Stopped(fault, line) => Some((fault.number(), *line)),
            SessionFault::WriteFailed(line) => Some((Fault::WriteFailed.number(), *line)),
            SessionFault::Memory => None,
        }
    }
}

/// Reads a session of a source, runs it with these options, and writes its listing to a sink while it runs.
pub fn run_streams<R: Read, W: Write>(
    alloc: Global,
    source: &mut Source<'_, R>,
    sink: &mut Sink<'_, W>,
    options: Options,
) -> Result<SessionEnd, SessionFault>
    requires source_unfailed { source.old.failed ≡ false }
    requires sink_unfailed { sink.old.failed ≡ false }
    ensures run { IsRunOfStreams R.remaining W.contents options source.old source.new sink.old sink.new result }
    ensures told { AreTold source.new.failed sink.new.failed result }
    ensures same_reader { source.new.reader.ghost_name ≡ source.old.reader.ghost_name }
    ensures same_writer { sink.new.writer.ghost_name ≡ sink.old.writer.ghost_name }
{
    let Ok(input) = read_text(alloc, source) else {
        return Err(SessionFault::Memory);
    };
    let Ok(statements) = statements(alloc, input.text.as_slice(), input.ending) else {
        return Err(SessionFault::Memory);
    };
    run::run(alloc, statements.as_slice(), options, sink)
}

/// Reads a session, runs it with these options, and writes its listing while it runs. After a failed call the reader or the writer is not called again.
///
/// A session has one listing. Two calls that read the same text to the same end, with the same options, write the same bytes and give the same answer, unless one
/// of them fails to write or lacks memory; that one has written a beginning of what the other writes. Where several paths lead to the place of a RISK, any of
/// them may be told: the listings agree up to the first RISK line that tells another. The laws `one_outcome`, `assured_lines_are_kept`,
/// `written_cancels_come_first` and `written_growth_is_refused` of the crate `machine_laws` say this, and what the bytes promise of ASSURED, S222 and SB37.
pub fn run_session<R: Read, W: Write>(
    alloc: Global,
    reader: &mut R,
    writer: &mut W,
    options: Options,
) -> Result<SessionEnd, SessionFault>
    ensures { IsSession options (R.remaining reader.old) (R.remaining reader.new) (W.contents writer.old) (W.contents writer.new) result }
{
    let mut source = Source::new(reader);
    let mut sink = Sink::new(writer);
    run_streams(alloc, &mut source, &mut sink, options)
}

/// Where a read failed, S6 is told in place of the statement that was cut, unless a statement that was read whole has a fault.
pub fn failed_reads_are_told()
    ensures { (text : List ℕ) → TellsCut text (session_of ReadFailed text) }
{}
