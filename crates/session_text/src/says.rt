//! What a line outside a block says.
ghost use Rattle.std.specs.Prelude.{◌≡◌, IfOk};
ghost use Rattle.session_text.specs.Fields.{fields_of};
ghost use Rattle.session_text.specs.Statements.{initiator_of, procedure_of, says_by, says_of, unit_of};

use crate::events::{device_end, event_by, turns};
use crate::fault::Fault;
use crate::fields::{is_marked, next_field, only_field, two_fields};
use crate::groups::group;
use crate::programs::program;
use crate::sets::set;
use crate::statement::{Block, LineSays, Says, configures};
use crate::values::serials_in;
use crate::volumes::volume;
use jname_core::decimal::number_within;
use jname_core::name8::{Name8, UnitName};
use plain::text::Text;
use session_input::statement::ConfigStatement;
use std::alloc::{AllocError, Global};

fn unit<'a>(alloc: Global, operands: &[u8]) -> Result<Says<'a>, AllocError>
    ensures { IfOk result (λ s. s ≡ unit_of (fields_of operands.now)) }
{
    let Some((name, serials)) = two_fields(operands) else {
        return Ok(Says::Refused(Fault::BadValue));
    };
    match UnitName::read(name.bytes) {
        Err(_) => Ok(Says::Refused(Fault::BadValue)),
        Ok(name) => match serials_in(alloc, serials.bytes)? {
            None => Ok(Says::Refused(Fault::BadValue)),
            Some(serials) => configures(alloc, ConfigStatement::Unit { name, serials }),
        },
    }
}

fn initiator<'a>(alloc: Global, operands: &[u8]) -> Result<Says<'a>, AllocError>
    ensures { IfOk result (λ s. s ≡ initiator_of (fields_of operands.now)) }
{
    let Some((number, classes)) = two_fields(operands) else {
        return Ok(Says::Refused(Fault::BadValue));
    };
    match number_within(0, u16::MAX, number.bytes) {
        None => Ok(Says::Refused(Fault::BadValue)),
        Some(number) => {
            let classes = Text::copy_of(alloc, classes.bytes)?;
            configures(alloc, ConfigStatement::Initiator { number, classes })
        }
    }
}

fn procedure(operands: &[u8]) -> Block
    ensures { result ≡ procedure_of (fields_of operands.now) }
{
    let Some(name) = only_field(operands) else {
        return Block::Faulty(Fault::BadValue);
    };
    match Name8::read(name.bytes) {
        Err(_) => Block::Faulty(Fault::BadValue),
        Ok(name) => Block::Procedure(name),
    }
}

/// What a line says by its word. Most lines are turns, and then device ends: so those words are looked for first.
fn word_says<'a>(alloc: Global, word: &[u8], operands: &[u8]) -> Result<LineSays<'a>, AllocError>
    ensures { IfOk result (λ l. l ≡ says_by word.now (fields_of operands.now)) }
{
    if word == b"TURN".as_slice() {
        return Ok(LineSays::One(turns(operands)));
    }
    if word == b"DEV".as_slice() {
        return Ok(LineSays::One(device_end(operands)));
    }
    if word == b"VOLUME".as_slice() {
        Ok(LineSays::One(volume(alloc, operands)?))
    } else if word == b"UNIT".as_slice() {
        Ok(LineSays::One(unit(alloc, operands)?))
    } else if word == b"GROUP".as_slice() {
        Ok(LineSays::One(group(alloc, operands)?))
    } else if word == b"SET".as_slice() {
        Ok(LineSays::Opens(set(alloc, operands)?))
    } else if word == b"PROC".as_slice() {
        Ok(LineSays::Opens(procedure(operands)))
    } else if word == b"PROGRAM".as_slice() {
        Ok(LineSays::Opens(program(operands)))
    } else if word == b"INIT".as_slice() {
        Ok(LineSays::One(initiator(alloc, operands)?))
    } else {
        event_by(alloc, word, operands)
    }
}

/// What a line outside a block says.
pub(crate) fn line_says<'a>(alloc: Global, line: &[u8]) -> Result<LineSays<'a>, AllocError>
    ensures { IfOk result (λ l. l ≡ says_of line.now) }
{
    let Some((_, behind)) = next_field(line) else {
        return Ok(LineSays::Blank);
    };
    let Some((word, operands)) = next_field(behind) else {
        return Ok(LineSays::One(Says::Refused(Fault::UnknownStatement)));
    };
    if is_marked(line) {
        word_says(alloc, word.bytes, operands)
    } else {
        Ok(LineSays::One(Says::Refused(Fault::UnknownStatement)))
    }
}
