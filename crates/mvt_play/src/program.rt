//! What the program does, over its streams: its status, and what it says on the stream of errors.
ghost use Rattle.std.specs.Prelude.{◌≡◌, false};
ghost use Rattle.mvt_play.specs.Endings.{IsStatus, RunsAsAsked, status_of, status_of_text};

use command_line::ended::{ALL_READ, Ended, SESSION_FAULT, end_out_of_memory};
use command_line::options::Asked;
use command_line::program::{Flag, Program};
use play_core::play::play_streams;
use play_core::text::{Extended, extend_streams};
use play_core::waits::Waits;
use session_core::stream::{Sink, Source};
use session_core::{SessionEnd, SessionFault};
use std::alloc::{AllocError, Global};
use std::io::{Read, Write};

/// The program, as its command line and its help speak of it.
pub(crate) fn mvt_play<'a>() -> Program<'a> {
    Program {
        name: "mvt-play",
        about: "Reads a session on standard input, plays it on until nothing moves, and writes its listing",
        usage: "mvt-play [OPTIONS] < SESSION",
        flags: &[Flag {
            name: "events",
            help: "Write the session with the added events in place of its listing",
        }],
        end: "Status: 0 the session has no fault; 1 it has one, or is too long with its added events; 2 the command line; 3 out of memory\nExample: mvt-play < pay.session\nSee also: mvt, mvt-check, mvt-picture",
    }
}

/// Says it, and ends so.
fn end_saying<E: Write>(errors: &mut E, status: u8, text: &str) -> Ended
    ensures { result.status ≡ status }
{
    Ended {
        status,
        said: write!(errors, "{text}\n").is_ok(),
    }
}

/// Says how a session ended.
fn end_session<E: Write>(errors: &mut E, outcome: Result<SessionEnd, SessionFault>) -> Ended
    ensures { result.status ≡ status_of outcome }
{
    match outcome {
        Ok(SessionEnd) => Ended {
            status: ALL_READ,
            said: true,
        },
        Err(fault) => match fault.number_and_line() {
            Some((number, line)) => Ended {
                status: SESSION_FAULT,
                said: write!(errors, "session fault S{number} at line {line}\n").is_ok(),
            },
            None => end_out_of_memory(errors),
        },
    }
}

/// Says what waits, a line each. `Ok(true)` where all of it was written.
fn say_waits<E: Write>(alloc: Global, errors: &mut E, waits: &[Waits]) -> Result<bool, AllocError> {
    let mut text = Vec::new(alloc);
    for wait in waits {
        wait.write_to(&mut text)?;
    }
    Ok(errors.write_all(text.as_slice()).is_ok())
}

/// Says what waits, and then how the session ended.
fn end_with<E: Write>(
    alloc: Global,
    errors: &mut E,
    waits: &[Waits],
    outcome: Result<SessionEnd, SessionFault>,
) -> Ended
    ensures { IsStatus (status_of outcome) result.status }
{
    match say_waits(alloc, errors, waits) {
        Ok(waits_said) => {
            let ended = end_session(errors, outcome);
            Ended {
                status: ended.status,
                said: waits_said && ended.said,
            }
        }
        Err(_) => end_out_of_memory(errors),
    }
}

/// Says what came of the text with the added events.
fn end_extended<E: Write>(alloc: Global, errors: &mut E, extended: Extended) -> Ended
    ensures { IsStatus (status_of_text extended) result.status }
{
    match extended {
        Extended::Written(waits) => end_with(alloc, errors, waits.as_slice(), Ok(SessionEnd)),
        Extended::Cut => end_saying(
            errors,
            SESSION_FAULT,
            "the session cannot be written further",
        ),
        Extended::HasFault(fault, line) => {
            end_session(errors, Err(SessionFault::Stopped(fault, line)))
        }
        Extended::TooLong => end_saying(
            errors,
            SESSION_FAULT,
            "the session with its events is longer than 1 MiB",
        ),
        Extended::OutOfMemory => end_out_of_memory(errors),
    }
}

/// Plays the session of the source on, and writes its listing to the sink, or its text with the added events where these are asked for.
pub(crate) fn run_program<R: Read, W: Write, E: Write>(
    alloc: Global,
    asked: &Asked<'_>,
    source: &mut Source<'_, R>,
    sink: &mut Sink<'_, W>,
    errors: &mut E,
) -> Ended
    requires source_unfailed { source.old.failed ≡ false }
    requires sink_unfailed { sink.old.failed ≡ false }
    ensures { RunsAsAsked R.remaining W.contents asked.now source.old source.new sink.old sink.new result.status }
{
    if asked.has("events") {
        let extended = extend_streams(alloc, source, sink, asked.options);
        return end_extended(alloc, errors, extended);
    }
    let played = play_streams(alloc, source, sink, asked.options);
    end_with(alloc, errors, played.waits.as_slice(), played.outcome)
}
