//! What the program does, over its streams: its status, and what it says on the stream of errors.
ghost use Rattle.std.specs.Prelude.{◌≡◌, false};
ghost use Rattle.mvt_picture.specs.Endings.{WritesPicture, status_of};

use crate::session::run_session;
use command_line::ended::{ALL_READ, Ended, SESSION_FAULT, end_out_of_memory};
use command_line::program::Program;
use history_core::history::History;
use picture_core::draw::picture_of;
use run_options::Options;
use session_core::stream::Source;
use session_core::{SessionEnd, SessionFault};
use std::alloc::Global;
use std::io::{Read, Write};
use svg_text::picture::{WriteFault, write_picture};

/// The program, as its command line and its help speak of it.
pub(crate) fn mvt_picture<'a>() -> Program<'a> {
    Program {
        name: "mvt-picture",
        about: "Reads a session on standard input and writes a picture of it in SVG on standard output",
        usage: "mvt-picture [OPTIONS] < SESSION",
        flags: &[],
        end: "Status: 0 the session has no fault; 1 it has one, or the picture is not written whole; 2 the command line; 3 out of memory\nExample: mvt-picture < pay.session > pay.svg\nSee also: mvt, mvt-check, mvt-play",
    }
}

/// Says how a session ended.
fn end_session<E: Write>(errors: &mut E, outcome: Result<SessionEnd, SessionFault>) -> Ended
    ensures { result.status ≡ status_of outcome }
{
    match outcome {
        Ok(SessionEnd) => Ended {
            status: ALL_READ,
            said: true,
        },
        Err(fault) => match fault.number_and_line() {
            Some((number, line)) => Ended {
                status: SESSION_FAULT,
                said: write!(errors, "session fault S{number} at line {line}\n").is_ok(),
            },
            None => end_out_of_memory(errors),
        },
    }
}

/// Writes the picture of a session that ended so.
fn end_picture<W: Write, E: Write>(
    alloc: Global,
    history: &History,
    output: &mut W,
    errors: &mut E,
    outcome: Result<SessionEnd, SessionFault>,
) -> Ended
    ensures { WritesPicture result.status (W.contents output.old) (W.contents output.new) }
{
    let Ok(picture) = picture_of(alloc, history) else {
        return end_out_of_memory(errors);
    };
    match write_picture(alloc, &picture, output) {
        Ok(()) => end_session(errors, outcome),
        Err(WriteFault::Memory) => end_out_of_memory(errors),
        Err(WriteFault::WriteFailed) => Ended {
            status: SESSION_FAULT,
            said: write!(errors, "the picture cannot be written further\n").is_ok(),
        },
    }
}

/// Runs the session of the source with these options, and writes a picture of the events before its first fault.
pub(crate) fn run_program<R: Read, W: Write, E: Write>(
    alloc: Global,
    options: Options,
    source: &mut Source<'_, R>,
    output: &mut W,
    errors: &mut E,
) -> Ended
    requires { source.old.failed ≡ false }
    ensures { WritesPicture result.status (W.contents output.old) (W.contents output.new) }
{
    let mut history = History::new(alloc);
    let outcome = run_session(alloc, source, options, &mut history);
    end_picture(alloc, &history, output, errors, outcome)
}
