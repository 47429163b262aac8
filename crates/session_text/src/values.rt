//! The values of fields.
ghost use Rattle.std.specs.Prelude.{◌≡◌, ◌==◌, ◌<◌, IfOk, IfSome, MatchOption, true, length, position};
ghost use Rattle.session_text.specs.Fields.{AreSerialsIn, base_in, before_star, class_of, has_faulty_serial, name_in, serial_in, set_name_in, star_in, times_in};

use jname_core::character::is_letter_or_digit;
use jname_core::decimal::number_within;
use jname_core::ds_name::{DsName, read_base, read_ds_name};
use jname_core::name8::Name8;
use jname_core::serial::Serial;
use plain::listed::Listed;
use std::alloc::{AllocError, Global};

/// The name that the text is.
pub(crate) fn name_in(text: &[u8]) -> Option<Name8>
    ensures { result ≡ name_in text.now }
{
    match Name8::read(text) {
        Err(_) => None,
        Ok(name) => Some(name),
    }
}

/// The serial that the text is.
pub(crate) fn serial_in(text: &[u8]) -> Option<Serial>
    ensures { result ≡ serial_in text.now }
{
    match Serial::read(text) {
        None => None,
        Some(serial) => Some(serial),
    }
}

/// The name of a data set that the text is.
pub(crate) fn set_name_in(text: &[u8]) -> Option<DsName>
    ensures { result ≡ set_name_in text.now }
{
    match read_ds_name(text) {
        Err(_) => None,
        Ok(name) => Some(name),
    }
}

/// The base of a group that the text is.
pub(crate) fn base_in(text: &[u8]) -> Option<DsName>
    ensures { result ≡ base_in text.now }
{
    match read_base(text) {
        Err(_) => None,
        Ok(base) => Some(base),
    }
}

/// The class of a writer that the text is.
pub(crate) fn class_of(text: &[u8]) -> Option<u8>
    ensures { result ≡ class_of text.now }
{
    match text {
        [c] if is_letter_or_digit(*c) => Some(*c),
        _ => None,
    }
}

fn star_in(text: &[u8]) -> Option<usize>
    ensures star { result ≡ star_in text.now }
    ensures bound { IfSome result (λ k. k < length text.now) }
{
    text.iter().position(|b| *b == b'*')
}

/// The value that is repeated.
pub(crate) fn before_star(text: &[u8]) -> &[u8]
    ensures { result.now ≡ before_star text.now }
{
    match star_in(text) {
        None => text,
        Some(star) => &text[..star],
    }
}

/// How many times a value is repeated.
pub(crate) fn times_in(text: &[u8]) -> Option<u16>
    ensures { result ≡ times_in text.now }
{
    match star_in(text) {
        None => Some(1),
        Some(star) => number_within(1, 9_999, &text[star + 1..]),
    }
}

pub(crate) fn comma_in(text: &[u8]) -> Option<usize>
    ensures comma { result ≡ position (λ b. b == 44) text.now }
    ensures bound { IfSome result (λ k. k < length text.now) }
{
    text.iter().position(|b| *b == b',')
}

/// The serials between commas, or none where one is no serial.
pub(crate) fn serials_in(alloc: Global, text: &[u8]) -> Result<Option<Listed<Serial>>, AllocError>
    ensures { IfOk result (λ r. MatchOption r (has_faulty_serial text.now ≡ true) (λ l. AreSerialsIn text.now l)) }
{
    let mut serials = Listed::empty(alloc);
    let mut rest = text;
    while let Some(comma) = comma_in(rest) {
        let (part, behind) = rest.split_at(comma);
        match Serial::read(part) {
            None => return Ok(None),
            Some(serial) => serials.push(serial)?,
        }
        rest = &behind[1..];
    }
    match Serial::read(rest) {
        None => Ok(None),
        Some(serial) => {
            serials.push(serial)?;
            Ok(Some(serials))
        }
    }
}
