//! What a row asks for, by commands.
use crate::sessions::streams::{Calls, Failure};
use row_table::words::{Words, value_of};
use run_options::{Options, RiskChoice};
use session_text::statement::Ending;

/// Which calls fail, one after another.
#[derive(Clone, Copy)]
pub(crate) enum Failing {
    Reads,
    Writes,
}

/// Numbers from the first to the last.
#[derive(Clone, Copy)]
pub(crate) struct Span {
    pub(crate) first: u16,
    pub(crate) last: u16,
}

/// What is asked for.
#[derive(Clone, Copy)]
pub(crate) struct Asked {
    pub(crate) options: Options,
    pub(crate) reads: Calls,
    pub(crate) writes: Calls,
    /// How many lines of the listing's end are told, where not all are.
    pub(crate) last: Option<usize>,
    /// Whether it is told how often the reader and the writer were called.
    pub(crate) counts: bool,
    /// Whether the session is run for each call, which fails.
    pub(crate) failing: Option<Failing>,
    /// The numbers for each of which the session is run.
    pub(crate) each: Option<Span>,
    /// Whether the events are driven one after another too.
    pub(crate) driven: bool,
    /// Whether the lines are the words of a command line.
    pub(crate) command_line: bool,
    /// How the text ends, where its statements are told and it is not run.
    pub(crate) statements: Option<Ending>,
}

/// A command without a number.
#[derive(Clone, Copy)]
enum Command {
    Risk(RiskChoice),
    Explain,
    Calls,
    Driven,
    CommandLine,
    Statements(Ending),
    Fails(Failing, Failure),
}

const COMMANDS: [(&str, Command); 14] = [
    ("risk run", Command::Risk(RiskChoice::Run)),
    ("risk refuse", Command::Risk(RiskChoice::Refuse)),
    ("explain", Command::Explain),
    ("calls", Command::Calls),
    ("driven", Command::Driven),
    ("command line", Command::CommandLine),
    ("statements", Command::Statements(Ending::Whole)),
    (
        "statements of a long text",
        Command::Statements(Ending::TooLong),
    ),
    (
        "statements of a cut text",
        Command::Statements(Ending::ReadFailed),
    ),
    (
        "each read fails",
        Command::Fails(Failing::Reads, Failure::Other),
    ),
    (
        "each read is interrupted",
        Command::Fails(Failing::Reads, Failure::Interrupted),
    ),
    (
        "each write fails",
        Command::Fails(Failing::Writes, Failure::Other),
    ),
    (
        "each write is interrupted",
        Command::Fails(Failing::Writes, Failure::Interrupted),
    ),
    (
        "each write takes nothing",
        Command::Fails(Failing::Writes, Failure::TakesNone),
    ),
];

/// A command with a number.
#[derive(Clone, Copy)]
enum Numbered {
    Views,
    Read,
    Write,
    Last,
    Each,
}

const NUMBERED: [(&str, Numbered); 5] = [
    ("views", Numbered::Views),
    ("read", Numbered::Read),
    ("write", Numbered::Write),
    ("last", Numbered::Last),
    ("each", Numbered::Each),
];

/// Calls of so many bytes at most, of which none fails.
fn calls_of(most: usize) -> Calls {
    Calls {
        most,
        fails_at: 0,
        failure: Failure::Other,
    }
}

/// What is asked for without a command.
pub(crate) fn asked_first() -> Asked {
    Asked {
        options: Options {
            risk: RiskChoice::Run,
            views: 1024,
            explains: false,
        },
        reads: calls_of(1),
        writes: calls_of(usize::MAX),
        last: None,
        counts: false,
        failing: None,
        each: None,
        driven: false,
        command_line: false,
        statements: None,
    }
}

/// Takes the rest of a span.
fn span_from(first: u16, words: &mut Words<'_>) -> Span {
    if words.next_word() != b"to".as_slice() {
        words.refuse();
    }
    Span {
        first,
        last: words.short(),
    }
}

impl Asked {
    fn fail(&mut self, failing: Failing, failure: Failure) {
        self.failing = Some(failing);
        self.reads.failure = failure;
        self.writes.failure = failure;
    }

    /// Takes a command with a number.
    fn take_number(&mut self, words: &mut Words<'_>) {
        let verb = words.one_of(&NUMBERED);
        let number = words.short();
        match verb {
            Some(Numbered::Views) => self.options.views = number,
            Some(Numbered::Read) => self.reads.most = usize::from(number),
            Some(Numbered::Write) => self.writes.most = usize::from(number),
            Some(Numbered::Last) => self.last = Some(usize::from(number)),
            Some(Numbered::Each) => self.each = Some(span_from(number, words)),
            None => {}
        }
    }

    /// Takes a command.
    pub(crate) fn take(&mut self, words: &mut Words<'_>) {
        let mut ahead = *words;
        let command = value_of(&COMMANDS, ahead.left());
        if command.is_none() {
            return self.take_number(words);
        }
        *words = ahead;
        match command {
            Some(Command::Risk(risk)) => self.options.risk = risk,
            Some(Command::Explain) => self.options.explains = true,
            Some(Command::Calls) => self.counts = true,
            Some(Command::Driven) => self.driven = true,
            Some(Command::CommandLine) => self.command_line = true,
            Some(Command::Statements(ending)) => self.statements = Some(ending),
            Some(Command::Fails(failing, failure)) => self.fail(failing, failure),
            None => {}
        }
    }
}
