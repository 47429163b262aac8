//! Statuses, and what is said on standard error.
use crate::program::run_program;
use crate::report::{Message, report};
use session_core::stream::{Sink, Source};
use session_core::{SessionEnd, SessionFault};
use session_text::fault::Fault;
use std::test::Fail;

/// Ends of sessions, their statuses, and what is said.
const ENDS: &[(Result<SessionEnd, SessionFault>, u8, &str)] = &[
    (Ok(SessionEnd), 0, ""),
    (
        Err(SessionFault::Stopped(Fault::UnknownStatement, 1)),
        1,
        "session fault S1 at line 1",
    ),
    (
        Err(SessionFault::Stopped(Fault::BadValue, 7)),
        1,
        "session fault S2 at line 7",
    ),
    (
        Err(SessionFault::Stopped(Fault::LateConfiguration, 1_048_576)),
        1,
        "session fault S8 at line 1048576",
    ),
    (
        Err(SessionFault::WriteFailed(120)),
        1,
        "session fault S7 at line 120",
    ),
    (Err(SessionFault::Memory), 3, "out of memory"),
];

#[test]
fn each_end_has_its_status_and_text(rt: HostRuntime) -> Result<(), Fail> {
    for (outcome, status, text) in ENDS {
        let (told, message) = report(*outcome);
        assert!(rt; told == *status);
        let said = format!(in rt.alloc(); "{message}")?;
        assert!(rt; said.as_str() == *text);
        assert!(rt; (message == Message::Nothing) == (*status == 0));
    }
    Ok(())
}

/// What every text about the command line has, but for the version.
const USAGE: &str = "Usage: mvt [OPTIONS] < SESSION\n";

#[test]
fn command_lines_that_are_not_taken_run_nothing(rt: HostRuntime) -> Result<(), Fail> {
    for (words, text) in [
        (["mvt", "--help"], USAGE),
        (["mvt", "--version"], "mvt 1.0\n"),
        (["mvt", "first.session"], USAGE),
        (["mvt", "--events"], USAGE),
        (["mvt", "--views=+1"], USAGE),
    ] {
        let mut reader = "./ TURN 1\n".as_bytes();
        let mut writer = Vec::new(rt.alloc());
        let mut errors = Vec::new(rt.alloc());
        let mut source = Source::new(&mut reader);
        let mut sink = Sink::new(&mut writer);
        let ended = run_program(
            rt.alloc(),
            words.as_slice(),
            true,
            &mut source,
            &mut sink,
            &mut errors,
        );
        assert!(rt; ended.status == 2 && ended.said);
        assert!(rt; str::from_utf8(errors.as_slice())?.contains(text));
        assert!(rt; writer.is_empty());
        assert!(rt; !reader.is_empty());
    }
    Ok(())
}

/// Sessions, whether a terminal is read, what is listed and said, and the status.
const SESSIONS: &[(&str, bool, &str, &str, u8)] = &[
    ("./ TURN 1\n./ WRITE A\n", false, "-- REFUSED A1\n", "", 0),
    (
        "./ TURN 1\n",
        true,
        "-- REFUSED A1\n",
        "mvt reads a session from standard input: mvt < SESSION\n",
        0,
    ),
    (
        "./ TURN 1\n./ TRUN 1\n",
        false,
        "-- REFUSED A1\n",
        "session fault S1 at line 2\n",
        1,
    ),
];

#[test]
fn sessions_are_run_and_reported(rt: HostRuntime) -> Result<(), Fail> {
    for (text, at_terminal, listing, said, status) in SESSIONS {
        let mut reader = text.as_bytes();
        let mut writer = Vec::new(rt.alloc());
        let mut errors = Vec::new(rt.alloc());
        let mut source = Source::new(&mut reader);
        let mut sink = Sink::new(&mut writer);
        let ended = run_program(
            rt.alloc(),
            ["mvt"].as_slice(),
            *at_terminal,
            &mut source,
            &mut sink,
            &mut errors,
        );
        assert!(rt; ended.status == *status && ended.said);
        assert!(rt; errors.as_slice() == said.as_bytes());
        assert!(rt; writer.as_slice() == listing.as_bytes());
        assert!(rt; reader.is_empty());
    }
    Ok(())
}
