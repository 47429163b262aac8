//! Worked jobs alone, over lists and over volumes with their tracks. The tables say which commands there are.
#![tactic(auto)]

mod case;
mod coded;
mod found;
mod job;
mod kept;
mod mounts;
mod run;
mod shown;
mod terms;

use crate::case::read_case;
use crate::job::tell_job;
use jcl_job::job::job_of;
use jcl_plan::day::Day;
use row_table::desk::Line;
use row_table::told::Told;
use std::alloc::Global;
use value_core::refusal::ReadError;

/// Tells what becomes of a job. A job without a date runs on the first day of 1970.
pub fn answer(alloc: Global, input: &[u8], told: &mut Told) {
    let Some(date) = Day::new(25_567) else {
        return;
    };
    let mut line = Line::new(alloc, input);
    let case = read_case(alloc, &mut line, date);
    told.append(&line.told);
    let (units, library) = (&case.coded.units, &case.coded.library);
    match job_of(alloc, units, library, case.deck.as_slice()) {
        Ok(plan) => tell_job(alloc, told, &case, plan),
        Err(ReadError::Refused(_)) => told.line(b"REFUSED"),
        Err(ReadError::Memory) => told.want(),
    }
}
