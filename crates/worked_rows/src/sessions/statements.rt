//! The statements of a text, and what each says.
use jcl_meaning::program::Request;
use jcl_plan::plan::Record;
use kept_requests::requests::Requests;
use plain::lent::Lent;
use row_table::told::Told;
use session_input::event::Event;
use session_input::statement::{ConfigStatement, SetStatement};
use session_text::parse::statements;
use session_text::statement::{Ending, Says, Statement};
use set_core::records::Records;
use std::alloc::Global;

/// A word, and a number behind it.
fn tell_count(told: &mut Told, word: &[u8], number: u16) {
    told.numbered(word, u64::from(number));
}

fn tell_lines(told: &mut Told, lines: &[Lent<'_>]) {
    for line in lines {
        told.two(b"\n|", line.as_slice());
        told.word(b"|");
    }
}

/// A record without the blanks at its end.
fn tell_record(told: &mut Told, word: &[u8], record: &Record) {
    let mut length = 0;
    for (place, byte) in record.iter().enumerate() {
        if *byte != b' ' {
            length = place + 1;
        }
    }
    told.two(word, record.split_at(length.min(80)).0);
}

fn tell_records(told: &mut Told, records: &Records) {
    for at in 0..records.len() {
        if let Some(record) = records.read_at(at) {
            tell_record(told, b"\n|", &record);
        }
        told.word(b"|");
    }
}

fn tell_request(told: &mut Told, request: &Request) {
    match request {
        Request::Get(dd) => told.two(b"\n|GET ", dd.as_slice()),
        Request::Put { dd, text } => {
            told.two(b"\n|PUT ", dd.as_slice());
            tell_record(told, b" ", text)
        }
        Request::End(code) => tell_count(told, b"\n|CODE ", code.number()),
        Request::Abend(code) => tell_count(told, b"\n|ABEND ", code.number()),
    }
}

fn tell_requests(told: &mut Told, requests: &Requests) {
    for at in 0..requests.len() {
        if let Some(request) = requests.at(at) {
            tell_request(told, &request);
        }
        told.word(b"|");
    }
}

fn tell_set(told: &mut Told, set: &SetStatement) {
    told.two(b"SET ", set.name.as_slice());
    told.two(b" ", set.serial.as_slice());
    tell_count(told, b" ", set.tracks);
    if set.catalogued {
        told.word(b" CAT");
    }
    if let Some(day) = &set.expires {
        told.numbered(b" EXPDT ", u64::from(day.number()));
    }
    tell_records(told, &set.records)
}

/// The statements of volumes and groups.
fn tell_store(told: &mut Told, statement: &ConfigStatement<'_>) {
    match statement {
        ConfigStatement::Volume {
            serial,
            tracks,
            used,
        } => {
            told.two(b"VOLUME ", serial.as_slice());
            tell_count(told, b" ", *tracks);
            for extent in used.as_slice() {
                tell_count(told, b" ", extent.start);
                tell_count(told, b"+", extent.tracks);
            }
        }
        ConfigStatement::Unit { name, serials } => {
            told.two(b"UNIT ", name.as_slice());
            for serial in serials.as_slice() {
                told.two(b" ", serial.as_slice());
            }
        }
        ConfigStatement::Group {
            base,
            limit,
            scratch,
        } => {
            told.two(b"GROUP ", base.as_slice());
            tell_count(told, b" ", *limit);
            if *scratch {
                told.word(b" SCRATCH");
            }
        }
        _ => {}
    }
}

fn tell_config(told: &mut Told, statement: &ConfigStatement<'_>) {
    match statement {
        ConfigStatement::Set(set) => tell_set(told, set),
        ConfigStatement::Procedure { name, lines } => {
            told.two(b"PROC ", name.as_slice());
            tell_lines(told, lines.as_slice())
        }
        ConfigStatement::Program { name, requests } => {
            told.two(b"PROGRAM ", name.as_slice());
            tell_requests(told, requests.get())
        }
        ConfigStatement::Initiator { number, classes } => {
            tell_count(told, b"INIT ", *number);
            told.two(b" ", classes.as_slice())
        }
        _ => tell_store(told, statement),
    }
}

fn tell_zap(told: &mut Told, n: u32, offset: u8, bytes: &[u8]) {
    told.numbered(b"ZAP ", u64::from(n));
    tell_count(told, b" ", u16::from(offset));
    for byte in bytes {
        tell_count(told, b" ", u16::from(*byte));
    }
}

fn tell_event(told: &mut Told, event: &Event<'_>) {
    match event {
        Event::Read(cards) => {
            told.word(b"READ");
            tell_lines(told, cards.get().as_slice())
        }
        Event::Turn(number) => tell_count(told, b"TURN ", u16::from(*number)),
        Event::DeviceEnd(serial) => told.two(b"DEV ", serial.as_slice()),
        Event::Write(class) => told.two(b"WRITE ", &[*class]),
        Event::Cancel(job) => tell_count(told, b"CANCEL ", *job),
        Event::Zap {
            record,
            offset,
            bytes,
        } => tell_zap(told, *record, *offset, bytes.get().as_slice()),
        Event::Display => told.two(b"DISPLAY", b""),
        Event::Date(day) => told.numbered(b"DATE ", u64::from(day.number())),
    }
}

fn tell_says(told: &mut Told, says: &Says<'_>) {
    match says {
        Says::Config { statement, has_end } => {
            tell_config(told, statement.get());
            if !*has_end {
                told.word(b"\nWITHOUT END");
            }
        }
        Says::Events(event, times) => {
            tell_event(told, event);
            if *times != 1 {
                tell_count(told, b"*", *times);
            }
        }
        Says::Refused(fault) => tell_count(told, b"S", u16::from(fault.number())),
    }
}

fn tell_statement(told: &mut Told, statement: &Statement<'_>) {
    told.numbered(b"", statement.line as u64);
    told.word(b": ");
    tell_says(told, &statement.says);
    told.end_line();
}

/// The statements of a text that ends so: the first line of each, and what it says, with the lines of its block behind `|`.
pub(crate) fn tell_statements(alloc: Global, told: &mut Told, text: &[u8], ending: Ending) {
    let Some(read) = told.got(statements(alloc, text, ending)) else {
        return;
    };
    for statement in read.as_slice() {
        tell_statement(told, statement);
    }
}
