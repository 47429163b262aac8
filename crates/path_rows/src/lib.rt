//! Worked jobs before they run: what is reported of each, and whether paths that are reported lead to their faults. The tables say which commands there are.
#![tactic(auto)]

mod case;
mod job;
mod places;
mod plain_views;
mod repeat;
mod start;
mod words;

use crate::case::{Case, Reader, Unread};
use crate::job::push_job;
use plain::draft::Draft;
use row_table::told::Told;
use std::alloc::{AllocError, Global};
use std::str;

/// Reads a job and what it finds. A line that is not understood is told.
fn read_case<'a>(alloc: Global, text: &'a str, out: &mut Draft) -> Result<Case<'a>, AllocError> {
    let mut reader = Reader::new(alloc);
    for line in text.lines() {
        match reader.take_line(line) {
            Ok(()) => {}
            Err(Unread::Memory) => return Err(AllocError),
            Err(Unread::Wrong) => {
                out.push(b"? ")?;
                out.push(line.as_bytes())?;
                out.push(b"\n")?;
            }
        }
    }
    Ok(reader.into_case())
}

/// Tells what may become of a job.
fn tell(alloc: Global, input: &[u8]) -> Result<Draft, AllocError> {
    let mut out = Draft::empty(alloc);
    match str::from_utf8(input) {
        Ok(text) => {
            let case = read_case(alloc, text, &mut out)?;
            push_job(alloc, &mut out, &case)?;
        }
        Err(_) => out.push(b"? bytes that are no text\n")?,
    }
    out.keep();
    Ok(out)
}

/// Tells what a row asks for.
pub fn answer(alloc: Global, input: &[u8], told: &mut Told) {
    let out = tell(alloc, input);
    if let Some(out) = told.got(out) {
        told.word(out.kept());
    }
}
