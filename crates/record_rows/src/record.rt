//! A record in hand: its bytes, and one field written at a time.
ghost use Rattle.std.specs.Prelude.{◌≡◌, ◌+◌, ◌<◌, ◌≤◌, ◌^◌, length, true};

use crate::fields::tell_fields;
use cb_meaning::layout::Field;
use cb_records::rec::{Rec, read_rec};
use row_table::desk::Line;
use row_table::told::Told;
use std::alloc::Global;

#[derive(Clone, Copy)]
pub(crate) enum RecordVerb {
    Zeros,
    Places,
    All,
    Byte,
    Number,
    Text,
    Field,
    Fields,
    Show,
}

/// A record of a kind, in which each further byte is its own place.
fn places(kind: u8) -> Option<Rec> {
    let mut bytes = [0; 176];
    for (at, byte) in bytes.iter_mut().enumerate() {
        *byte = u8::try_from(at).unwrap_or(0);
    }
    bytes[0] = kind;
    read_rec(&bytes)
}

/// A record with these bytes from a place on, where they lie in it.
pub(crate) fn with_bytes(rec: &Rec, at: u8, bytes: &[u8]) -> Option<Rec> {
    let mut all = [0; 176];
    all.copy_from_slice(rec.bytes());
    let at = usize::from(at);
    if at > all.len() || bytes.len() > all.len() - at {
        return None;
    }
    all[at..at + bytes.len()].copy_from_slice(bytes);
    read_rec(&all)
}

/// The bytes, sixteen a line behind the place of the first, without the lines of zeros.
pub(crate) fn tell_record(told: &mut Told, bytes: &[u8]) {
    for (line, part) in bytes.chunks(16).enumerate() {
        if part != [0; 16].as_slice() {
            told.numbered(b"", line as u64 * 16);
            told.word(b": ");
            told.bytes(part);
            told.end_line();
        }
    }
}

/// Whether a number can stand in so many bytes.
fn is_within(number: u32, width: u8) -> bool
    ensures { result ≡ true → (width ≤ 4) × (number < 256 ^ width) }
{
    match width {
        0 => number == 0,
        1 => number < 256,
        2 => number < 65_536,
        3 => number < 16_777_216,
        4 => true,
        _ => false,
    }
}

/// Writes a number of the record in hand, unless it does not fit or its field does not lie in the record.
fn write_number(rec: &mut Rec, at: u8, line: &mut Line<'_>) {
    let width = line.words.byte();
    let number = line.words.number();
    if !is_within(number, width) || at > 176 - width {
        return line.told.not_allowed();
    }
    rec.write_number(Field { at, width }, number);
}

/// Writes a text of the record in hand, unless it does not fit or its field does not lie in the record.
fn write_text(alloc: Global, rec: &mut Rec, at: u8, line: &mut Line<'_>) {
    let width = line.words.byte();
    let Some(text) = line.told.got(line.words.text(alloc)) else {
        return;
    };
    if width > 176 || at > 176 - width || text.len() > usize::from(width) {
        return line.told.not_allowed();
    }
    rec.write_text(Field { at, width }, text.as_slice());
}

fn write_byte(rec: &mut Rec, at: u8, value: u8, told: &mut Told) {
    if at >= 176 {
        return told.not_allowed();
    }
    rec.write_byte(at, value);
}

/// Takes a record in hand, if it is one.
fn take_in_hand(rec: &mut Rec, made: Option<Rec>, told: &mut Told) {
    match made {
        None => told.line(b"NO RECORD"),
        Some(made) => *rec = made,
    }
}

/// Takes the record in hand that so many bytes of a value are.
fn take_all(alloc: Global, rec: &mut Rec, line: &mut Line<'_>) {
    let count = usize::from(line.words.short());
    let value = line.words.byte();
    if let Some(bytes) = line.told.got(vec![in alloc; value; count]) {
        take_in_hand(rec, read_rec(bytes.as_slice()), &mut line.told);
    }
}

/// A number of the record in hand.
fn tell_field(rec: &Rec, line: &mut Line<'_>) {
    let at = line.words.byte();
    let width = line.words.byte();
    if width > 4 || at > 176 - width {
        return line.told.not_allowed();
    }
    line.told
        .numbered_line(b"", u64::from(rec.number(Field { at, width })));
}

/// Does a command about the record in hand.
pub(crate) fn on_record(alloc: Global, rec: &mut Rec, verb: RecordVerb, line: &mut Line<'_>) {
    match verb {
        RecordVerb::Zeros => *rec = Rec::zeroed(),
        RecordVerb::Places => take_in_hand(rec, places(line.words.byte()), &mut line.told),
        RecordVerb::All => take_all(alloc, rec, line),
        RecordVerb::Byte => write_byte(rec, line.words.byte(), line.words.byte(), &mut line.told),
        RecordVerb::Number => write_number(rec, line.words.byte(), line),
        RecordVerb::Text => write_text(alloc, rec, line.words.byte(), line),
        RecordVerb::Field => tell_field(rec, line),
        RecordVerb::Fields => tell_fields(&mut line.told, rec),
        RecordVerb::Show => tell_record(&mut line.told, rec.bytes()),
    }
}
