//! The lines that are events.
ghost use Rattle.std.specs.Prelude.{◌≡◌, IfOk};
ghost use Rattle.session_text.specs.Fields.{fields_of};
ghost use Rattle.session_text.specs.Statements.{cancel_of, date_of, deck_of, device_end_of, display_of, event_by, turns_of, writes_of};

use crate::fault::Fault;
use crate::fields::{next_field, only_field};
use crate::statement::{Block, LineSays, Says};
use crate::values::{before_star, class_of, serial_in, times_in};
use crate::zaps::zap;
use date_core::written::written_day;
use jname_core::decimal::number_within;
use session_input::event::Event;
use std::alloc::{AllocError, Global};

/// An initiator acts, so many times over.
pub(crate) fn turns<'a>(operands: &[u8]) -> Says<'a>
    ensures { result ≡ turns_of (fields_of operands.now) }
{
    let Some(text) = only_field(operands) else {
        return Says::Refused(Fault::BadValue);
    };
    match number_within(1, 15, before_star(text.bytes)) {
        None => Says::Refused(Fault::BadValue),
        Some(number) => match times_in(text.bytes) {
            None => Says::Refused(Fault::BadValue),
            Some(times) => Says::Events(Event::Turn(number as u8), times),
        },
    }
}

fn writes<'a>(operands: &[u8]) -> Says<'a>
    ensures { result ≡ writes_of (fields_of operands.now) }
{
    let Some(text) = only_field(operands) else {
        return Says::Refused(Fault::BadValue);
    };
    match class_of(before_star(text.bytes)) {
        None => Says::Refused(Fault::BadValue),
        Some(class) => match times_in(text.bytes) {
            None => Says::Refused(Fault::BadValue),
            Some(times) => Says::Events(Event::Write(class), times),
        },
    }
}

/// A device ends what it does.
pub(crate) fn device_end<'a>(operands: &[u8]) -> Says<'a>
    ensures { result ≡ device_end_of (fields_of operands.now) }
{
    let Some(serial) = only_field(operands) else {
        return Says::Refused(Fault::BadValue);
    };
    match serial_in(serial.bytes) {
        None => Says::Refused(Fault::BadValue),
        Some(serial) => Says::Events(Event::DeviceEnd(serial), 1),
    }
}

fn cancel<'a>(operands: &[u8]) -> Says<'a>
    ensures { result ≡ cancel_of (fields_of operands.now) }
{
    let Some(job) = only_field(operands) else {
        return Says::Refused(Fault::BadValue);
    };
    match number_within(1, 9_999, job.bytes) {
        None => Says::Refused(Fault::BadValue),
        Some(job) => Says::Events(Event::Cancel(job), 1),
    }
}

fn display<'a>(operands: &[u8]) -> Says<'a>
    ensures { result ≡ display_of (fields_of operands.now) }
{
    match next_field(operands) {
        None => Says::Events(Event::Display, 1),
        Some(_) => Says::Refused(Fault::BadValue),
    }
}

fn date<'a>(operands: &[u8]) -> Says<'a>
    ensures { result ≡ date_of (fields_of operands.now) }
{
    let Some(day) = only_field(operands) else {
        return Says::Refused(Fault::BadValue);
    };
    match written_day(day.bytes) {
        None => Says::Refused(Fault::BadValue),
        Some(day) => Says::Events(Event::Date(day), 1),
    }
}

fn deck(operands: &[u8]) -> Block
    ensures { result ≡ deck_of (fields_of operands.now) }
{
    match next_field(operands) {
        None => Block::Deck,
        Some(_) => Block::Faulty(Fault::BadValue),
    }
}

/// What a line says by its word, where that is an event's.
pub(crate) fn event_by<'a>(
    alloc: Global,
    word: &[u8],
    operands: &[u8],
) -> Result<LineSays<'a>, AllocError>
    ensures { IfOk result (λ l. l ≡ event_by word.now (fields_of operands.now)) }
{
    if word == b"READ".as_slice() {
        Ok(LineSays::Opens(deck(operands)))
    } else if word == b"TURN".as_slice() {
        Ok(LineSays::One(turns(operands)))
    } else if word == b"DEV".as_slice() {
        Ok(LineSays::One(device_end(operands)))
    } else if word == b"WRITE".as_slice() {
        Ok(LineSays::One(writes(operands)))
    } else if word == b"CANCEL".as_slice() {
        Ok(LineSays::One(cancel(operands)))
    } else if word == b"ZAP".as_slice() {
        Ok(LineSays::One(zap(alloc, operands)?))
    } else if word == b"DISPLAY".as_slice() {
        Ok(LineSays::One(display(operands)))
    } else if word == b"DATE".as_slice() {
        Ok(LineSays::One(date(operands)))
    } else {
        Ok(LineSays::One(Says::Refused(Fault::UnknownStatement)))
    }
}
