//! A session is played on, and its listing is written.
ghost use Rattle.std.specs.Prelude.{◌≡◌, ◌+◌, ◌^◌, ◌<◌, ◌≤◌, ◌++◌, [], Err, IfOk, OnOk, false, length};
ghost use Rattle.session_core.specs.Sessions.{session_behind};
ghost use Rattle.play_core.specs.Given.{statements_at};
ghost use Rattle.play_core.specs.Playing.{IsFound, PlaysStreams};

use crate::given::Given;
use crate::giving::Added;
use crate::lines::line_behind;
use crate::search::find;
use crate::waits::Waits;
use plain::listed::Listed;
use run_options::Options;
use session_core::run::run;
use session_core::stream::{Sink, Source};
use session_core::transfer::read_text;
use session_core::{SessionEnd, SessionFault};
use session_text::parse::statements;
use session_text::statement::{Says, Statement};
use std::alloc::{AllocError, Global};
use std::io::{Read, Write};

/// What a session that was played on came to, the events that were added, in their order, and what waits then.
#[derive(Drop)]
pub struct Played {
    pub outcome: Result<SessionEnd, SessionFault>,
    pub given: Vec<Given>,
    pub waits: Vec<Waits>,
}

impl Played {
    fn starved(alloc: Global) -> Played
        ensures outcome { result.outcome ≡ Err SessionFault.Memory }
        ensures given { result.given.items ≡ [] }
    {
        Played {
            outcome: Err(SessionFault::Memory),
            given: Vec::new(alloc),
            waits: Vec::new(alloc),
        }
    }
}

/// Puts the added events behind the statements, the first at this line.
fn add_statements(
    statements: &mut Listed<Statement<'_>>,
    line: usize,
    given: &[Given],
) -> Result<(), AllocError>
    requires { line + length given.now < 2 ^ 64 }
    ensures { OnOk result (statements.new ≡ statements.old ++ statements_at line given.now) }
{
    let mut at = line;
    for next in given {
        statements.push(Statement {
            line: at,
            says: Says::Events(next.event(), 1),
        })?;
        at += 1;
    }
    Ok(())
}

/// Finds the events that are added to a session, and puts them behind its statements.
fn extend(
    alloc: Global,
    statements: &mut Listed<Statement<'_>>,
    line: usize,
    options: Options,
) -> Result<Added, AllocError>
    requires { line ≤ 2 ^ 63 }
    ensures found { IfOk result (λ added. IsFound options (session_behind [] statements.old) added.given.items) }
    ensures behind { IfOk result (λ added. statements.new ≡ statements.old ++ statements_at line added.given.items) }
{
    let found = find(alloc, statements.as_slice(), options)?;
    match found {
        None => Ok(Added::nothing(alloc)),
        Some(added) => {
            add_statements(statements, line, added.given.as_slice())?;
            Ok(added)
        }
    }
}

/// The events that are added to a session, in their order. A session with a fault gets none.
pub fn added_events(
    alloc: Global,
    statements: &[Statement<'_>],
    options: Options,
) -> Result<Vec<Given>, AllocError>
    ensures { IfOk result (λ given. IsFound options (session_behind [] statements.now) given.items) }
{
    let found = find(alloc, statements, options)?;
    match found {
        None => Ok(Vec::new(alloc)),
        Some(added) => {
            let Added { given, waits: _ } = added;
            Ok(given)
        }
    }
}

/// Reads a session of a source, plays it on with these options, and writes the listing of both to a sink while it runs.
pub fn play_streams<R: Read, W: Write>(
    alloc: Global,
    source: &mut Source<'_, R>,
    sink: &mut Sink<'_, W>,
    options: Options,
) -> Played
    requires source_unfailed { source.old.failed ≡ false }
    requires sink_unfailed { sink.old.failed ≡ false }
    ensures plays { PlaysStreams R.remaining W.contents options source.old source.new sink.old sink.new result.given.items result.outcome }
{
    let Ok(input) = read_text(alloc, source) else {
        return Played::starved(alloc);
    };
    let Ok(mut statements) = statements(alloc, input.text.as_slice(), input.ending) else {
        return Played::starved(alloc);
    };
    let Ok(line) = line_behind(alloc, input.text.as_slice()) else {
        return Played::starved(alloc);
    };
    let Ok(added) = extend(alloc, &mut statements, line, options) else {
        return Played::starved(alloc);
    };
    let outcome = run(alloc, statements.as_slice(), options, sink);
    let Added { given, waits } = added;
    Played {
        outcome,
        given,
        waits,
    }
}
