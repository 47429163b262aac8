//! The records of a set by themselves.
use crate::keys::column;
use crate::tells::{column_of, tell_records};
use row_table::desk::{Desk, Line};
use row_table::told::Told;
use set_core::records::Records;
use std::alloc::Global;

#[derive(Clone, Copy)]
enum Verb {
    Fill,
    Append,
    Write,
    Clear,
    Show,
    Count,
    Tracks,
    Read,
    Full,
}

const VERBS: [(&str, Verb); 9] = [
    ("FILL", Verb::Fill),
    ("APPEND", Verb::Append),
    ("WRITE", Verb::Write),
    ("CLEAR", Verb::Clear),
    ("SHOW", Verb::Show),
    ("COUNT", Verb::Count),
    ("TRACKS", Verb::Tracks),
    ("READ", Verb::Read),
    ("FULL", Verb::Full),
];

/// Appends so many records. One for which memory is missing is appended again.
fn fill(records: &mut Records, count: u16, byte: u8, told: &mut Told) {
    for _ in 0..count {
        if records.append([byte; 80]).is_err() {
            told.over(records.append([byte; 80]));
        }
    }
}

/// The byte in all columns of a record, or NONE.
fn tell_read(told: &mut Told, records: &Records, place: u16) {
    match records.read_at(usize::from(place)) {
        Some(record) => told.line(&[column_of(&record)]),
        None => told.line(b"NONE"),
    }
}

fn tell_full(told: &mut Told, records: &Records, tracks: u16) {
    if records.fills(usize::from(tracks)) {
        told.line(b"YES");
    } else {
        told.line(b"NO");
    }
}

/// Records, of which there is none at first.
#[derive(Drop)]
pub(crate) struct Written {
    records: Records,
}

impl Written {
    pub(crate) fn new(alloc: Global) -> Written {
        Written {
            records: Records::new(alloc),
        }
    }
}

impl Desk for Written {
    fn show(&mut self, _alloc: Global, told: &mut Told) {
        tell_records(told, &self.records);
    }

    fn act(&mut self, _alloc: Global, line: &mut Line<'_>) {
        let records = &mut self.records;
        match line.words.one_of(&VERBS) {
            Some(Verb::Fill) => {
                let count = line.words.short();
                fill(records, count, column(&mut line.words), &mut line.told);
            }
            Some(Verb::Append) => {
                line.told
                    .over(records.append([column(&mut line.words); 80]));
                line.told.line(b"OK");
            }
            Some(Verb::Write) => {
                line.told
                    .over(records.write_first([column(&mut line.words); 80]));
                line.told.line(b"OK");
            }
            Some(Verb::Clear) => records.clear(),
            Some(Verb::Show) => tell_records(&mut line.told, records),
            Some(Verb::Count) => line.told.numbered_line(b"", records.len() as u64),
            Some(Verb::Tracks) => line.told.numbered_line(b"", records.tracks_used() as u64),
            Some(Verb::Read) => tell_read(&mut line.told, records, line.words.short()),
            Some(Verb::Full) => tell_full(&mut line.told, records, line.words.short()),
            None => {}
        }
    }
}
