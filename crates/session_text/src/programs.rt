//! A program: its line, and its requests.
ghost use Rattle.std.specs.Prelude.{◌≡◌, drop};
ghost use Rattle.std.specs.Option.{option_map};
ghost use Rattle.jcl_meaning.specs.declared.program.Request.TheVariants.{Abend, End, Get};
ghost use Rattle.session_text.specs.Fields.{fields_of, name_in};
ghost use Rattle.session_text.specs.Programs.{code_of, get_of, is_ending, put_of, put_with, request_by, request_of};
ghost use Rattle.session_text.specs.Statements.{program_of};

use crate::fault::Fault;
use crate::fields::{behind_word, only_field, without_blanks, word_of};
use crate::sets::record_in;
use crate::statement::Block;
use crate::values::name_in;
use jcl_meaning::program::Request;
use jcl_plan::outcome::{Code, GREATEST_CODE};
use jcl_plan::plan::Record;
use jname_core::decimal::number_within;
use jname_core::name8::Name8;

/// A program by its name.
pub(crate) fn program(operands: &[u8]) -> Block
    ensures { result ≡ program_of (fields_of operands.now) }
{
    let Some(name) = only_field(operands) else {
        return Block::Faulty(Fault::BadValue);
    };
    match name_in(name.bytes) {
        None => Block::Faulty(Fault::BadValue),
        Some(name) => Block::Program(name),
    }
}

/// The next record of a DD.
fn get(operands: &[u8]) -> Option<Request>
    ensures { result ≡ get_of (fields_of operands.now) }
{
    let Some(dd) = only_field(operands) else {
        return None;
    };
    match name_in(dd.bytes) {
        None => None,
        Some(dd) => Some(Request::Get(dd)),
    }
}

fn put_with(dd: Option<Name8>, text: Option<Record>) -> Option<Request>
    ensures { result ≡ put_with dd text }
{
    let Some(dd) = dd else {
        return None;
    };
    match text {
        None => None,
        Some(text) => Some(Request::Put { dd, text }),
    }
}

/// What stands behind the first byte.
fn behind_first(text: &[u8]) -> &[u8]
    ensures { result.now ≡ drop 1 text.now }
{
    if text.is_empty() {
        return text;
    }
    let (_, behind) = text.split_at(1);
    behind
}

/// A record to a DD, which begins behind one blank.
fn put(operands: &[u8]) -> Option<Request>
    ensures { result ≡ put_of operands.now }
{
    let dd = name_in(word_of(operands));
    put_with(dd, record_in(behind_first(behind_word(operands))))
}

/// The code with which a program ends.
fn code_in(operands: &[u8]) -> Option<Code>
    ensures { result ≡ code_of (fields_of operands.now) }
{
    let Some(number) = only_field(operands) else {
        return None;
    };
    match number_within(0, GREATEST_CODE, number.bytes) {
        None => None,
        Some(number) => Code::new(number),
    }
}

fn end(operands: &[u8]) -> Option<Request>
    ensures { result ≡ option_map End (code_of (fields_of operands.now)) }
{
    match code_in(operands) {
        None => None,
        Some(code) => Some(Request::End(code)),
    }
}

fn abend(operands: &[u8]) -> Option<Request>
    ensures { result ≡ option_map Abend (code_of (fields_of operands.now)) }
{
    match code_in(operands) {
        None => None,
        Some(code) => Some(Request::Abend(code)),
    }
}

fn request_by(word: &[u8], operands: &[u8]) -> Option<Request>
    ensures { result ≡ request_by word.now operands.now }
{
    if word == b"GET".as_slice() {
        get(operands)
    } else if word == b"PUT".as_slice() {
        put(without_blanks(operands))
    } else if word == b"CODE".as_slice() {
        end(operands)
    } else if word == b"ABEND".as_slice() {
        abend(operands)
    } else {
        None
    }
}

/// The request that a line spells, which begins with its word.
pub(crate) fn request_of(line: &[u8]) -> Option<Request>
    ensures { result ≡ request_of line.now }
{
    request_by(word_of(line), behind_word(line))
}

/// Whether it is the end of a program.
pub(crate) fn is_ending(request: &Request) -> bool
    ensures { result ≡ is_ending request.now }
{
    match request {
        Request::Get(_) => false,
        Request::Put { .. } => false,
        Request::End(_) => true,
        Request::Abend(_) => true,
    }
}
