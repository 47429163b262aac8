//! Programs by their names.
use jcl_meaning::program::{Move, Request};
use jcl_plan::outcome::{Abend, Code, Outcome};
use jcl_plan::plan::Record;
use jname_core::name8::Name8;
use kept_requests::requests::{Requests, SharedRequests};
use prog_core::library::ProgramLibrary;
use row_table::desk::Line;
use row_table::names::name8;
use row_table::told::Told;
use row_table::words::Words;
use std::alloc::{AllocError, Global};

const BLANK: Record = [b' '; 80];

#[derive(Clone, Copy)]
enum Verb {
    Get,
    Put,
    End,
    Abend,
}

const VERBS: [(&str, Verb); 4] = [
    ("GET", Verb::Get),
    ("PUT", Verb::Put),
    ("END", Verb::End),
    ("ABEND", Verb::Abend),
];

/// Takes the next word as a code.
fn code(words: &mut Words<'_>) -> Option<Code> {
    let code = Code::new(words.short());
    words.some(code)
}

/// Takes the next words as a request.
fn request(words: &mut Words<'_>) -> Option<Request> {
    match words.one_of(&VERBS)? {
        Verb::Get => Some(Request::Get(name8(words)?)),
        Verb::Put => Some(Request::Put {
            dd: name8(words)?,
            text: BLANK,
        }),
        Verb::End => Some(Request::End(code(words)?)),
        Verb::Abend => Some(Request::Abend(code(words)?)),
    }
}

/// Takes all further words as requests.
fn requests(alloc: Global, line: &mut Line<'_>) -> Requests {
    let mut requests = Requests::new(alloc);
    for _ in 0..64u8 {
        if line.words.is_empty() {
            break;
        }
        if let Some(request) = request(&mut line.words) {
            line.told.over(requests.push(request));
        }
    }
    requests
}

/// Adds a program, if its name is new.
fn add(
    alloc: Global,
    library: &mut ProgramLibrary,
    name: Name8,
    requests: Requests,
) -> Result<bool, AllocError> {
    if library.has(&name) {
        return Ok(false);
    }
    library.add(name, SharedRequests::new(alloc, requests)?)?;
    Ok(true)
}

/// Adds a program, whose requests are all further words.
pub(crate) fn add_program(alloc: Global, library: &mut ProgramLibrary, line: &mut Line<'_>) {
    let Some(name) = name8(&mut line.words) else {
        return;
    };
    let requests = requests(alloc, line);
    if line.told.got(add(alloc, library, name, requests)) == Some(false) {
        line.told.not_allowed();
    }
}

/// A record's move, by its DD; the text that is put is seen as ` BLANK` or not.
fn tell_move(told: &mut Told, moved: &Move) {
    match moved {
        Move::From(dd) => told.two(b"FROM ", dd.as_slice()),
        Move::To { dd, text } => {
            told.two(b"TO ", dd.as_slice());
            if *text == BLANK {
                told.word(b" BLANK");
            }
        }
    }
    told.end_line();
}

fn tell_code(told: &mut Told, word: &[u8], code: Code) {
    told.numbered_line(word, u64::from(code.number()));
}

fn tell_abend(told: &mut Told, abend: Abend) {
    match abend {
        Abend::User(code) => tell_code(told, b"USER ", code),
        Abend::S806 => told.line(b"S806"),
        _ => told.line(b"ANOTHER ABEND"),
    }
}

fn tell_ending(told: &mut Told, ending: Outcome) {
    match ending {
        Outcome::Code(code) => tell_code(told, b"CODE ", code),
        Outcome::Abend(abend) => tell_abend(told, abend),
        Outcome::Bypassed | Outcome::Flushed => told.line(b"ANOTHER END"),
    }
}

/// Whether a program is there, how many records it moves, those of its first eight places, and how it ends.
pub(crate) fn tell_runs(library: &ProgramLibrary, line: &mut Line<'_>) {
    let Some(name) = name8(&mut line.words) else {
        return;
    };
    if !library.has(&name) {
        line.told.line(b"NOT THERE");
    }
    line.told
        .numbered_line(b"MOVES ", library.move_count(&name) as u64);
    for place in 0..8usize {
        if let Some(moved) = library.move_at(&name, place) {
            tell_move(&mut line.told, &moved);
        }
    }
    tell_ending(&mut line.told, library.ending_of(&name));
}
