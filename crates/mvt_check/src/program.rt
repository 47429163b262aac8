//! What the program does, over its streams: its status, and what it says on the stream of errors.
ghost use Rattle.std.specs.Prelude.{◌≡◌, IfOk, false, if◌then◌else◌};
ghost use Rattle.session_core.specs.Streams.{sink_state};
ghost use Rattle.mvt_check.specs.Brief.{brief_of};
ghost use Rattle.mvt_check.specs.Checking.{ChecksStreams, IsFoundIn, IsTold};

use crate::brief::brief_of;
use crate::session::{Found, check_session};
use command_line::ended::{ALL_READ, Ended, SESSION_FAULT, end_out_of_memory};
use command_line::program::{Flag, Program};
use lone_deck::frame;
use run_options::Options;
use session_core::stream::{Sink, Source};
use session_core::transfer::{Input, read_text, write_text};
use session_text::parse::statements;
use std::alloc::{AllocError, Global};
use std::io::{Read, Write};

/// The program, as its command line and its help speak of it.
pub(crate) fn mvt_check<'a>() -> Program<'a> {
    Program {
        name: "mvt-check",
        about: "Reads a session on standard input, and writes why its decks are refused, and where",
        usage: "mvt-check [OPTIONS] < SESSION",
        flags: &[
            Flag {
                name: "brief",
                help: "Write one line for each finding: LINE:COLUMN: and what it is",
            },
            Flag {
                name: "again",
                help: "Say of each ASSURED job what it is answered when it is run a second time",
            },
            Flag {
                name: "deck",
                help: "Read from the first card on one deck, whose lines count from 1, without ./ READ and ./ END",
            },
        ],
        end: "Status: 0 nothing is wrong; 1 a deck is refused, the session has a fault, or a job is at RISK or TOOMANY; 2 the command line; 3 out of memory\nExample: mvt-check < pay.session\n         cat site.session pay.jcl | mvt-check --deck\nSee also: mvt, mvt-play, mvt-picture",
    }
}

/// What is asked for beside the options of a session: that what is found is written in brief, that a deck which stands alone is looked at, and that jobs are
/// tried a second time.
#[derive(Clone, Copy)]
pub(crate) struct Wishes {
    pub(crate) brief: bool,
    pub(crate) deck: bool,
    pub(crate) again: bool,
}

/// What is written of a text: all of it, or a line for each finding.
fn shown(alloc: Global, text: Vec<u8>, brief: bool) -> Result<Vec<u8>, AllocError>
    ensures { IfOk result (λ shown. shown.items ≡ (if brief then brief_of text.items else text.items)) }
{
    if brief {
        brief_of(alloc, text.as_slice())
    } else {
        Ok(text)
    }
}

/// Looks at what was read, which is a session, or a session and a deck behind it.
fn found_in(
    alloc: Global,
    options: Options,
    wishes: Wishes,
    input: Input,
) -> Result<Found, AllocError>
    ensures { IfOk result (IsFoundIn options wishes.deck input.ending input.text.items) }
{
    let Input { text, ending } = input;
    let framed = frame(alloc, text, ending, wishes.deck)?;
    let statements = statements(alloc, framed.text.as_slice(), ending)?;
    check_session(
        alloc,
        framed.text.as_slice(),
        framed.above,
        statements.as_slice(),
        options,
        wishes.again,
    )
}

/// A text is written, or as much of it as the sink takes. The status is 1 where something is wrong.
fn tell<W: Write, E: Write>(
    text: &[u8],
    fails: bool,
    sink: &mut Sink<'_, W>,
    errors: &mut E,
) -> Ended
    requires { sink.old.failed ≡ false }
    ensures { IsTold (sink_state W.contents sink.old) (sink_state W.contents sink.new) text.now fails result.status }
{
    match write_text(sink, text) {
        Ok(()) => Ended {
            status: if fails { SESSION_FAULT } else { ALL_READ },
            said: true,
        },
        Err(_) => Ended {
            status: SESSION_FAULT,
            said: write!(errors, "what is found cannot be written further\n").is_ok(),
        },
    }
}

/// Looks at the decks of the session of the source, and writes to the sink what is found, in brief where it is asked for.
pub(crate) fn run_program<R: Read, W: Write, E: Write>(
    alloc: Global,
    options: Options,
    wishes: Wishes,
    source: &mut Source<'_, R>,
    sink: &mut Sink<'_, W>,
    errors: &mut E,
) -> Ended
    requires source_unfailed { source.old.failed ≡ false }
    requires sink_unfailed { sink.old.failed ≡ false }
    ensures { ChecksStreams R.remaining W.contents options wishes source.old source.new sink.old sink.new result.status }
{
    let Ok(input) = read_text(alloc, source) else {
        return end_out_of_memory(errors);
    };
    let Ok(found) = found_in(alloc, options, wishes, input) else {
        return end_out_of_memory(errors);
    };
    let fails = found.fails();
    let Found { text, .. } = found;
    let Ok(text) = shown(alloc, text, wishes.brief) else {
        return end_out_of_memory(errors);
    };
    tell(text.as_slice(), fails, sink, errors)
}
