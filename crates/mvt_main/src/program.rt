//! What the program does, over its streams: its status, and what it says on the stream of errors.
ghost use Rattle.std.specs.Prelude.{◌≡◌, [], codes, false, map};
ghost use Rattle.std.specs.Bool.{OnTrue};
ghost use Rattle.std.specs.Io.KnownBytes.{Appends};
ghost use Rattle.mvt_main.specs.Programs.{RunsMvt, SaysEnd, said_of};

use crate::report::{Message, session_report};
use command_line::ended::{Ended, end_unrun, prompt};
use command_line::options::read_words;
use command_line::program::Program;
use run_options::Options;
use session_core::stream::{Sink, Source};
use std::alloc::Global;
use std::convert::AsStr;
use std::io::{Read, Write};

/// How the program is called.
pub(crate) const USAGE: &str = "mvt [OPTIONS] < SESSION";

/// The program, as its command line and its help speak of it. It has no option of its own.
fn mvt<'a>() -> Program<'a>
    ensures name { result.name.now ≡ codes "mvt" }
    ensures flags { result.flags.now ≡ [] }
{
    Program {
        name: "mvt",
        about: "Reads a session on standard input and writes its listing on standard output",
        usage: USAGE,
        flags: &[],
        end: "",
    }
}

/// Says it. `true` where all of it was written.
pub fn say<E: Write>(errors: &mut E, message: Message) -> bool
    ensures { OnTrue result (Appends (E.contents errors.old) (E.contents errors.new) (said_of message)) }
{
    match message {
        Message::Nothing => true,
        _ => write!(errors, "{message}\n").is_ok(),
    }
}

/// Says from where a session is read, where that is a terminal. Then runs the session of the source, and says how it ended.
fn end_session<R: Read, W: Write, E: Write>(
    alloc: Global,
    at_terminal: bool,
    options: Options,
    source: &mut Source<'_, R>,
    sink: &mut Sink<'_, W>,
    errors: &mut E,
) -> Ended
    requires source_unfailed { source.old.failed ≡ false }
    requires sink_unfailed { sink.old.failed ≡ false }
    ensures { SaysEnd R.remaining W.contents E.contents options at_terminal source.old source.new sink.old sink.new
        errors.old errors.new result }
{
    let prompted = prompt(errors, "mvt", at_terminal);
    let (status, message) = session_report(alloc, source, sink, options);
    let said = say(errors, message);
    Ended {
        status,
        said: prompted && said,
    }
}

/// Runs the session of the source, as the words of the command line ask, and writes its listing to the sink. Where the words ask for no
/// run, neither is called. Whether the source is a terminal decides only whether it is said from where a session is read.
pub fn run_program<S: AsStr, R: Read, W: Write, E: Write>(
    alloc: Global,
    words: &[S],
    at_terminal: bool,
    source: &mut Source<'_, R>,
    sink: &mut Sink<'_, W>,
    errors: &mut E,
) -> Ended
    requires source_unfailed { source.old.failed ≡ false }
    requires sink_unfailed { sink.old.failed ≡ false }
    ensures { RunsMvt R.remaining W.contents E.contents (map S.text words.now) at_terminal source.old source.new sink.old sink.new
        errors.old errors.new result }
{
    match read_words(alloc, &mvt(), words) {
        Ok(asked) => end_session(alloc, at_terminal, asked.options, source, sink, errors),
        Err(error) => end_unrun(alloc, errors, USAGE, &error),
    }
}
