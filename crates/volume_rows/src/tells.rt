//! What is told of answers.
use group_core::group::{Group, Rolled};
use jname_core::serial::Serial;
use row_table::told::Told;
use set_core::records::{DataRecord, Records};
use vtoc_core::entry::{Extent, SetEntry};
use vtoc_core::fault::VolumeFault;
use vtoc_core::volume::TrackCounts;

/// The number of a refusal behind its letter; want of memory has none.
pub(crate) fn tell_fault(told: &mut Told, letter: &[u8], number: Option<u8>) {
    match number {
        Some(number) => told.numbered_line(letter, number.into()),
        None => told.want(),
    }
}

/// OK, or the refusal of a volume.
pub(crate) fn tell_answer(told: &mut Told, answer: Result<(), VolumeFault>) {
    match answer {
        Ok(()) => told.line(b"OK"),
        Err(fault) => tell_fault(told, b"V", fault.number()),
    }
}

/// A volume, or NONE.
pub(crate) fn tell_found(told: &mut Told, found: Option<Serial>) {
    match found {
        Some(serial) => told.line(serial.as_slice()),
        None => told.line(b"NONE"),
    }
}

/// What became of a generation that was to be entered.
pub(crate) fn tell_rolled(told: &mut Told, rolled: Rolled) {
    match rolled {
        Rolled::Entered => told.line(b"ENTERED"),
        Rolled::Removed { number, serial } => {
            told.numbered(b"REMOVED ", number.into());
            told.line_of_two(b" ", serial.as_slice());
        }
        Rolled::Lowest => told.line(b"LOWEST"),
        Rolled::Same => told.line(b"SAME"),
    }
}

/// A group's limit, and its generations with their volumes, the newest first.
pub(crate) fn tell_group(told: &mut Told, group: &Group) {
    told.numbered(b"LIMIT ", group.limit().into());
    if group.scratches() {
        told.word(b" SCRATCH");
    }
    for generation in group.generations() {
        told.numbered(b" ", generation.number.into());
        told.two(b" ", generation.serial.as_slice());
    }
    told.end_line();
}

/// The first and the last track of an extent, behind a word.
fn tell_extent(told: &mut Told, word: &[u8], extent: &Extent) {
    let last = extent.start.saturating_add(extent.tracks.saturating_sub(1));
    told.numbered(word, extent.start.into());
    told.numbered(b"-", last.into());
}

/// Extents on the line, or NOTHING.
pub(crate) fn tell_extents(told: &mut Told, extents: &[Extent]) {
    let Some((first, others)) = extents.split_first() else {
        return told.word(b"NOTHING");
    };
    tell_extent(told, b"", first);
    for extent in others {
        tell_extent(told, b" ", extent);
    }
}

/// A line of an extent, or NONE.
pub(crate) fn tell_place(told: &mut Told, found: Option<Extent>) {
    match found {
        Some(extent) => tell_extent(told, b"", &extent),
        None => told.word(b"NONE"),
    }
    told.end_line();
}

/// The byte that stands in all columns of a record; `?` where they differ.
pub(crate) fn column_of(record: &DataRecord) -> u8 {
    let first = record[0];
    if *record == [first; 80] { first } else { b'?' }
}

/// How many records there are, and the byte in the columns of each.
pub(crate) fn tell_records(told: &mut Told, records: &Records) {
    told.numbered(b"RECORDS ", records.len() as u64);
    if records.len() > 0 {
        told.word(b" ");
    }
    for at in 0..records.len() {
        if let Some(record) = records.read_at(at) {
            told.word(&[column_of(&record)]);
        }
    }
    told.end_line();
}

/// The extents of a set, its day and its records, or NONE.
pub(crate) fn tell_set(told: &mut Told, set: Option<&SetEntry>) {
    let Some(set) = set else {
        return told.line(b"NONE");
    };
    tell_extents(told, set.extents.as_slice());
    if let Some(day) = set.expires {
        told.numbered(b" EXPIRES ", day.into());
    }
    told.word(b" ");
    tell_records(told, &set.records);
}

/// How many tracks are free, aside, in sets and unusable.
pub(crate) fn tell_counts(told: &mut Told, counts: &TrackCounts) {
    told.numbered(b"FREE ", counts.free as u64);
    told.numbered(b" ASIDE ", counts.aside as u64);
    told.numbered(b" IN SETS ", counts.in_sets as u64);
    told.numbered_line(b" UNUSABLE ", counts.unusable as u64);
}
