//! Words of a text, read and written.
use crate::case::Unread;
use jcl_plan::fault::Fault;
use jcl_plan::outcome::{Abend, Code, Outcome};
use jname_core::ds_name::{DsName, read_ds_name};
use jname_core::serial::Serial;
use plain::draft::Draft;
use plain::listed::Listed;
use std::alloc::{AllocError, Global};

/// What was read, or a fault of the line.
pub(crate) fn wanted<T>(value: Option<T>) -> Result<T, Unread> {
    match value {
        None => Err(Unread::Wrong),
        Some(value) => Ok(value),
    }
}

pub(crate) fn serial_in(text: &str) -> Result<Serial, Unread> {
    wanted(Serial::read(text.as_bytes()))
}

pub(crate) fn set_name_in(text: &str) -> Result<DsName, Unread> {
    wanted(read_ds_name(text.as_bytes()).ok())
}

pub(crate) fn short_in(text: &str) -> Result<u16, Unread> {
    wanted(text.parse::<u16>().ok())
}

pub(crate) fn count_in(text: &str) -> Result<usize, Unread> {
    Ok(usize::from(short_in(text)?))
}

fn code_in(text: &str) -> Result<Code, Unread> {
    wanted(Code::new(short_in(text)?))
}

/// The fault of a number, as `F2`.
pub(crate) fn fault_in(text: &str) -> Result<Fault, Unread> {
    match text {
        "F1" => Ok(Fault::F1),
        "F2" => Ok(Fault::F2),
        "F3" => Ok(Fault::F3),
        "F4" => Ok(Fault::F4),
        "F5" => Ok(Fault::F5),
        "F7" => Ok(Fault::F7),
        "F8" => Ok(Fault::F8),
        "F9" => Ok(Fault::F9),
        "F10" => Ok(Fault::F10),
        _ => Err(Unread::Wrong),
    }
}

/// How a step ends by itself: as `C0004` or `U0000`.
fn ending_in(text: &str) -> Result<Outcome, Unread> {
    if let Some(number) = text.strip_prefix('C') {
        return Ok(Outcome::Code(code_in(number)?));
    }
    match text.strip_prefix('U') {
        None => Err(Unread::Wrong),
        Some(number) => Ok(Outcome::Abend(Abend::User(code_in(number)?))),
    }
}

/// How the steps come out: by themselves, or as `S222`, or as `B` and `F` where they do not run.
pub(crate) fn path_in(alloc: Global, words: &[&str]) -> Result<Listed<Outcome>, Unread> {
    let mut path = Listed::empty(alloc);
    for word in words {
        path.push(match *word {
            "S222" => Outcome::Abend(Abend::S222),
            "B" => Outcome::Bypassed,
            "F" => Outcome::Flushed,
            text => ending_in(text)?,
        })?;
    }
    Ok(path)
}

/// A number behind a word.
pub(crate) fn push_number(out: &mut Draft, word: &[u8], number: usize) -> Result<(), AllocError> {
    let mut buffer = itoa::Buffer::new();
    out.push(word)?;
    out.push(buffer.format(number as u64).as_bytes())
}
