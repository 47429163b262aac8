//! The line that writes into a record.
ghost use Rattle.std.specs.Prelude.{◌≡◌, ◌∷◌, [], IfNone, IfOk, IfSome};
ghost use Rattle.cb_meaning.specs.declared.layout.TheConstants.{QUEUE_LAYOUT, RECORD_BYTES};
ghost use Rattle.session_input.specs.declared.event.TheConstants.{FIRST_OPEN};
ghost use Rattle.jname_core.specs.Decimals.{number_within};
ghost use Rattle.session_text.specs.Fields.{fields_of, listed_in};
ghost use Rattle.session_text.specs.Rows.{three_of};
ghost use Rattle.session_text.specs.Statements.{bytes_in, zap_of, zap_with, zap_within};
ghost use Rattle.session_text.specs.Zaps.{few_of, last_open};

use crate::fault::Fault;
use crate::fields::only_field;
use crate::lines::Row;
use crate::statement::Says;
use crate::values::comma_in;
use boxed_core::Boxed;
use cb_meaning::layout::{QUEUE_LAYOUT, RECORD_BYTES};
use jname_core::decimal::{long_number_within, number_within};
use plain::short::Short;
use session_input::event::{Event, FIRST_OPEN, MOST_ZAPPED};
use std::alloc::{AllocError, Global};

/// The part before the first comma, and what stands behind that.
fn next_part<'a>(text: &'a [u8]) -> Option<(Row<'a>, &'a [u8])>
    ensures some { IfSome result (λ r. listed_in text.now ≡ r.0 ∷ listed_in r.1.now) }
    ensures none { IfNone result (listed_in text.now ≡ text.now ∷ []) }
{
    match comma_in(text) {
        None => None,
        Some(comma) => Some((
            Row {
                bytes: &text[..comma],
            },
            &text[comma + 1..],
        )),
    }
}

/// The parts, where two commas stand in the text.
fn three_parts<'a>(text: &'a [u8]) -> Option<(Row<'a>, Row<'a>, Row<'a>)>
    ensures { result ≡ three_of (listed_in text.now) }
{
    let Some((first, behind)) = next_part(text) else {
        return None;
    };
    match next_part(behind) {
        None => None,
        Some((second, rest)) => match next_part(rest) {
            None => Some((first, second, Row { bytes: rest })),
            Some(_) => None,
        },
    }
}

/// The number of a record that the text is; they count from 1.
fn record_in(text: &[u8]) -> Option<u32>
    ensures { result ≡ number_within 1 QUEUE_LAYOUT.most_records text.now }
{
    long_number_within(1, QUEUE_LAYOUT.most_records, text)
}

/// The place of a byte of a record that the text is, where that byte is open.
fn offset_in(text: &[u8]) -> Option<u8>
    ensures { result ≡ number_within FIRST_OPEN last_open text.now }
{
    match number_within(u16::from(FIRST_OPEN), RECORD_BYTES as u16 - 1, text) {
        None => None,
        Some(offset) => Some(offset as u8),
    }
}

/// The bytes that pairs of hexadecimal digits are, where they are not too many.
fn bytes_in(digits: &[u8]) -> Option<Short<MOST_ZAPPED>>
    ensures { result ≡ few_of (bytes_in digits.now) }
{
    if digits.len() > 2 * MOST_ZAPPED {
        return None;
    }
    let mut bytes = [0; MOST_ZAPPED];
    let count = digits.len() / 2;
    match hex::decode_to_slice(digits, &mut bytes[..count]) {
        Err(_) => None,
        Ok(()) => Some(Short::new(&bytes[..count])),
    }
}

/// These bytes from this offset on, where they are some and end within the record.
fn zap_within<'a>(
    alloc: Global,
    number: u32,
    offset: u8,
    bytes: Short<MOST_ZAPPED>,
) -> Result<Says<'a>, AllocError>
    ensures { IfOk result (λ s. s ≡ zap_within number offset bytes) }
{
    let count = bytes.as_slice().len();
    if 1 <= count && usize::from(offset) + count <= RECORD_BYTES {
        let zap = Event::Zap {
            record: number,
            offset,
            bytes: Boxed::new(alloc, bytes)?,
        };
        Ok(Says::Events(zap, 1))
    } else {
        Ok(Says::Refused(Fault::BadValue))
    }
}

fn zap_with<'a>(
    alloc: Global,
    number: Option<u32>,
    offset: Option<u8>,
    bytes: Option<Short<MOST_ZAPPED>>,
) -> Result<Says<'a>, AllocError>
    ensures { IfOk result (λ s. s ≡ zap_with number offset bytes) }
{
    let Some(number) = number else {
        return Ok(Says::Refused(Fault::BadValue));
    };
    let Some(offset) = offset else {
        return Ok(Says::Refused(Fault::BadValue));
    };
    match bytes {
        None => Ok(Says::Refused(Fault::BadValue)),
        Some(bytes) => zap_within(alloc, number, offset, bytes),
    }
}

/// One to 32 bytes of one record, from an offset on. Refused where a part is no such value, or where the bytes go past the record.
pub(crate) fn zap<'a>(alloc: Global, operands: &[u8]) -> Result<Says<'a>, AllocError>
    ensures { IfOk result (λ s. s ≡ zap_of (fields_of operands.now)) }
{
    let Some(operand) = only_field(operands) else {
        return Ok(Says::Refused(Fault::BadValue));
    };
    match three_parts(operand.bytes) {
        None => Ok(Says::Refused(Fault::BadValue)),
        Some((number, offset, digits)) => zap_with(
            alloc,
            record_in(number.bytes),
            offset_in(offset.bytes),
            bytes_in(digits.bytes),
        ),
    }
}
