//! A set that is there at the start: its line, and its records.
ghost use Rattle.std.specs.Prelude.{◌≡◌, ◌≤◌, IfOk, length, not};
ghost use Rattle.std.specs.List.{list_any};
ghost use Rattle.jname_core.specs.Characters.{is_between};
ghost use Rattle.session_text.specs.Fields.{fields_of};
ghost use Rattle.session_text.specs.Records.{filled, is_no_record, record_in};
ghost use Rattle.session_text.specs.Statements.{behind_if, expires_of, has_word, set_of, set_with};

use crate::fault::Fault;
use crate::fields::{next_field, two_fields};
use crate::statement::Block;
use crate::values::{serial_in, set_name_in};
use boxed_core::Boxed;
use date_core::written::written_day;
use jcl_plan::day::Day;
use jcl_plan::plan::Record;
use jname_core::decimal::number_within;
use jname_core::ds_name::DsName;
use jname_core::serial::Serial;
use session_input::statement::SetStatement;
use set_core::records::Records;
use std::alloc::{AllocError, Global};

const COLUMNS: usize = 80;

fn filled(line: &[u8]) -> Record
    requires { length line.now ≤ 80 }
    ensures { result ≡ filled line.now }
{
    let mut record = [b' '; COLUMNS];
    record[..line.len()].copy_from_slice(line);
    record
}

fn has_bad_byte(line: &[u8]) -> bool
    ensures { result ≡ list_any (λ b. not (is_between 32 126 b)) line.now }
{
    line.iter().any(|b| !(b' ' <= *b && *b <= b'~'))
}

/// Whether a line spells no record.
pub(crate) fn is_no_record(line: &[u8]) -> bool
    ensures { result ≡ is_no_record line.now }
{
    line.len() > COLUMNS || has_bad_byte(line)
}

/// The record that a line spells.
pub(crate) fn record_in(line: &[u8]) -> Option<Record>
    ensures { result ≡ record_in line.now }
{
    if is_no_record(line) {
        None
    } else {
        Some(filled(line))
    }
}

fn with_values(
    alloc: Global,
    name: Option<DsName>,
    serial: Option<Serial>,
    tracks: Option<u16>,
    catalogued: bool,
    expires: Option<Option<Day>>,
) -> Result<Block, AllocError>
    ensures { IfOk result (λ b. b ≡ set_with name serial tracks catalogued expires) }
{
    let Some(name) = name else {
        return Ok(Block::Faulty(Fault::BadValue));
    };
    let Some(serial) = serial else {
        return Ok(Block::Faulty(Fault::BadValue));
    };
    let Some(tracks) = tracks else {
        return Ok(Block::Faulty(Fault::BadValue));
    };
    match expires {
        None => Ok(Block::Faulty(Fault::BadValue)),
        Some(expires) => {
            let set = SetStatement {
                name,
                serial,
                tracks,
                catalogued,
                expires,
                records: Records::new(alloc),
            };
            Ok(Block::Set(Boxed::new(alloc, set)?))
        }
    }
}

/// Whether a text begins with this field.
fn has_word(word: &[u8], text: &[u8]) -> bool
    ensures { result ≡ has_word word.now (fields_of text.now) }
{
    match next_field(text) {
        None => false,
        Some((field, _)) => field.bytes == word,
    }
}

/// What stands behind the first field, or all where that does not count.
fn behind_if(counts: bool, text: &[u8]) -> &[u8]
    ensures { fields_of result.now ≡ behind_if counts (fields_of text.now) }
{
    if !counts {
        return text;
    }
    match next_field(text) {
        None => text,
        Some((_, behind)) => behind,
    }
}

/// The day before which a set is not to be deleted, where the text says it; none where it says anything else.
fn expires_in(text: &[u8]) -> Option<Option<Day>>
    ensures { result ≡ expires_of (fields_of text.now) }
{
    if next_field(text).is_none() {
        return Some(None);
    }
    let (word, day) = two_fields(text)?;
    if word.bytes != b"EXPDT".as_slice() {
        return None;
    }
    match written_day(day.bytes) {
        None => None,
        Some(day) => Some(Some(day)),
    }
}

/// A set on a volume, its tracks, whether it is catalogued, and its day.
pub(crate) fn set(alloc: Global, operands: &[u8]) -> Result<Block, AllocError>
    ensures { IfOk result (λ b. b ≡ set_of (fields_of operands.now)) }
{
    let Some((name, behind)) = next_field(operands) else {
        return Ok(Block::Faulty(Fault::BadValue));
    };
    let Some((serial, behind_serial)) = next_field(behind) else {
        return Ok(Block::Faulty(Fault::BadValue));
    };
    let Some((tracks, rest)) = next_field(behind_serial) else {
        return Ok(Block::Faulty(Fault::BadValue));
    };
    let name = set_name_in(name.bytes);
    let serial = serial_in(serial.bytes);
    let tracks = number_within(0, u16::MAX, tracks.bytes);
    let catalogued = has_word(b"CAT", rest);
    let expires = expires_in(behind_if(catalogued, rest));
    with_values(alloc, name, serial, tracks, catalogued, expires)
}
