//! How a program ends, and what is said where it runs no session, or waits for one that is typed.
ghost use Rattle.std.specs.Prelude.{◌≡◌};
ghost use Rattle.std.specs.Bool.{OnTrue};
ghost use Rattle.std.specs.Io.KnownBytes.{Appends};
ghost use Rattle.std.specs.IoError.{error_kind};
ghost use Rattle.clap.specs.Words.{kind_of};
ghost use Rattle.command_line.specs.Endings.{EndsAsked, EndsUnread, EndsUnrun, is_asked, misuse_status, prompt_of, said_of_memory};

use crate::misuse::one_line;
use clap::Error;
use clap::error::ErrorKind;
use std::alloc::Global;
use std::io::{self, Write};

/// The status of a session of which all was read.
pub const ALL_READ: u8 = 0;

/// The status of a session with a fault.
pub const SESSION_FAULT: u8 = 1;

/// The status of a command line that cannot be used, or that asks for help or for the version.
pub const MISUSE: u8 = 2;

/// The status where memory is missing.
pub const WANT_OF_MEMORY: u8 = 3;

/// How the program ended.
#[derive(Clone, Copy, PartialEq, Eq)]
pub struct Ended {
    pub status: u8,
    /// All that there was to say was written.
    pub said: bool,
}

/// The status of a command line that is not taken, by the kind of its error.
pub fn misuse_status(kind: ErrorKind) -> u8
    ensures { result ≡ misuse_status kind }
{
    match kind {
        ErrorKind::OutOfMemory => WANT_OF_MEMORY,
        _ => MISUSE,
    }
}

/// Says that memory is missing.
pub fn end_out_of_memory<E: Write>(errors: &mut E) -> Ended
    ensures status { result.status ≡ 3 }
    ensures said { OnTrue result.said (Appends (E.contents errors.old) (E.contents errors.new) said_of_memory) }
{
    Ended {
        status: WANT_OF_MEMORY,
        said: write!(errors, "out of memory\n").is_ok(),
    }
}

/// Says in a line what is wrong, and behind it how the program is called. `true` where all of it was written.
fn say_wrong<E: Write>(errors: &mut E, usage: &str, wrong: &str) -> bool {
    write!(
        errors,
        "{wrong}\nUsage: {usage}\nFor more information, try '--help'.\n"
    )
    .is_ok()
}

/// Says in a line why the command line is not taken, and behind it the usage. Where memory is missing for that line, the error's own text is told.
fn say_misuse<E: Write>(alloc: Global, errors: &mut E, usage: &str, error: &Error) -> bool {
    match one_line(alloc, error) {
        Ok(wrong) => say_wrong(errors, usage, wrong.as_str()),
        Err(_) => write!(errors, "{error}").is_ok(),
    }
}

/// Says why the command line is not taken, with the program's usage, or what the command line may hold, where it asks for that.
pub fn end_unrun<E: Write>(alloc: Global, errors: &mut E, usage: &str, error: &Error) -> Ended
    ensures { EndsUnrun (kind_of error.now) (E.contents errors.old) (E.contents errors.new) result }
{
    let status = misuse_status(error.kind());
    if status == WANT_OF_MEMORY {
        return end_out_of_memory(errors);
    }
    let said = if is_asked(error.kind()) {
        write!(errors, "{error}").is_ok()
    } else {
        say_misuse(alloc, errors, usage, error)
    };
    Ended { status, said }
}

/// Whether the command line asks for help or for the version, and nothing is wrong with it.
fn is_asked(kind: ErrorKind) -> bool
    ensures { result ≡ is_asked kind }
{
    match kind {
        ErrorKind::DisplayHelp => true,
        ErrorKind::DisplayVersion => true,
        _ => false,
    }
}

/// Writes the help or the version where the command line asks for it, with status 0; else says why the command line is not taken.
pub fn end_asked<W: Write, E: Write>(
    alloc: Global,
    output: &mut W,
    errors: &mut E,
    usage: &str,
    error: &Error,
) -> Ended
    ensures { EndsAsked (kind_of error.now) (W.contents output.old) (W.contents output.new) (E.contents errors.old) (E.contents errors.new) result }
{
    if is_asked(error.kind()) {
        Ended {
            status: ALL_READ,
            said: write!(output, "{error}").is_ok(),
        }
    } else {
        end_unrun(alloc, errors, usage, error)
    }
}

/// What is wrong where the words of the command line could not be had.
fn unread_text(error: &io::Error) -> &'static str {
    match error.kind() {
        io::ErrorKind::InvalidData => "error: an argument is no UTF-8",
        _ => "error: the command line cannot be read",
    }
}

/// Says why the words of the command line could not be had, with the program's usage.
pub fn end_unread<E: Write>(errors: &mut E, usage: &str, error: &io::Error) -> Ended
    ensures { EndsUnread (error_kind error.now) (E.contents errors.old) (E.contents errors.new) result }
{
    if error.kind() == io::ErrorKind::OutOfMemory {
        end_out_of_memory(errors)
    } else {
        Ended {
            status: MISUSE,
            said: say_wrong(errors, usage, unread_text(error)),
        }
    }
}

/// Says from where the program reads a session, where that is a terminal. `true` where all that there was to say was written.
pub fn prompt<E: Write>(errors: &mut E, name: &str, at_terminal: bool) -> bool
    ensures { OnTrue result (Appends (E.contents errors.old) (E.contents errors.new) (prompt_of name.now at_terminal)) }
{
    if at_terminal {
        write!(
            errors,
            "{name} reads a session from standard input: {name} < SESSION\n"
        )
        .is_ok()
    } else {
        true
    }
}
