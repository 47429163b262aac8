//! How a step's program ends, and what its ABEND does to what earlier steps passed. (DISP parameter)
ghost use Rattle.std.specs.Prelude.{◌≡◌, IfOk};
ghost use Rattle.jcl_meaning.specs.EndActs.{as_ending, end_line, later_than, marked_later};

use crate::state::Passed;
use jcl_plan::entry::JobLine;
use jcl_plan::outcome::{Code, Outcome};
use plain::listed::Listed;
use std::alloc::{AllocError, Global};

/// The outcome as an end: what is none counts as code 0.
pub fn as_ending(outcome: &Outcome) -> Outcome
    ensures { result ≡ as_ending outcome.now }
{
    match outcome {
        Outcome::Code(code) => Outcome::Code(*code),
        Outcome::Abend(abend) => Outcome::Abend(*abend),
        Outcome::Bypassed => Outcome::Code(Code::zero()),
        Outcome::Flushed => Outcome::Code(Code::zero()),
    }
}

/// The line of a program's end; what is no end counts as code 0.
pub fn end_line(outcome: &Outcome) -> JobLine
    ensures { result ≡ end_line outcome.now }
{
    match outcome {
        Outcome::Code(code) => JobLine::Code(*code),
        Outcome::Abend(abend) => JobLine::Abend(*abend),
        Outcome::Bypassed => JobLine::Code(Code::zero()),
        Outcome::Flushed => JobLine::Code(Code::zero()),
    }
}

/// A passed set behind an ABEND of step `n`, which came later for what an earlier step passed.
pub fn later_than(n: usize, p: &Passed) -> Passed
    ensures { result ≡ later_than n p.now }
{
    Passed {
        key: p.key,
        serial: p.serial,
        made: p.made,
        by_catalog: p.by_catalog,
        step: p.step,
        dd: p.dd,
        abend_later: p.abend_later || p.step < n,
    }
}

/// The passed sets, in their order, behind an ABEND of step `n`. The error is want of memory.
pub fn marked_later(
    alloc: Global,
    n: usize,
    passed: &[Passed],
) -> Result<Listed<Passed>, AllocError>
    ensures { IfOk result (λ l. l ≡ marked_later n passed.now) }
{
    let mut marked = Listed::empty(alloc);
    for p in passed {
        marked.push(later_than(n, p))?;
    }
    Ok(marked)
}
