//! Whether the outcomes on a path are those that its steps may have.
ghost use Rattle.std.specs.Prelude.{◌≡◌, ◌↔◌, IfOk, IsTrue, length, slice_get, take};
ghost use Rattle.jcl_plan.specs.declared.outcome.Fate.TheVariants as fate;
ghost use Rattle.path_meaning.specs.Certificates.{AreOfFates, IsOfFate};
ghost use Rattle.path_meaning.specs.Paths.{fate_told, fates_in};
ghost use Rattle.path_core.specs.FatesMet.{IsOfFateAt};

use jcl_plan::entry::JobLine;
use jcl_plan::outcome::{Fate, GREATEST_CODE, Outcome};
use plain::listed::Listed;
use std::alloc::{AllocError, Global};

/// The fate that a line tells.
fn fate_told(line: &JobLine) -> Option<Fate>
    ensures { result ≡ fate_told line.now }
{
    match line {
        JobLine::Step {
            step: _,
            name: _,
            procedure_step: _,
            fate,
        } => Some(*fate),
        _ => None,
    }
}

/// The fates that lines tell.
pub(crate) fn fates_in(alloc: Global, lines: &[JobLine]) -> Result<Listed<Fate>, AllocError>
    ensures { IfOk result (λ fates. fates ≡ fates_in lines.now) }
{
    let mut fates = Listed::empty(alloc);
    for line in lines {
        match fate_told(line) {
            Some(fate) => fates.push(fate)?,
            None => {}
        }
    }
    Ok(fates)
}

/// Whether a step that runs may end so.
fn is_end(outcome: Outcome) -> bool
    ensures { IsTrue result ↔ IsOfFate fate.Run outcome }
{
    match outcome {
        Outcome::Code(code) => code.number() <= GREATEST_CODE,
        Outcome::Abend(_) => true,
        Outcome::Bypassed => false,
        Outcome::Flushed => false,
    }
}

/// Whether a step of this fate may come out so.
fn is_of_fate(fate: Fate, outcome: Outcome) -> bool
    ensures { IsTrue result ↔ IsOfFate fate outcome }
{
    match fate {
        Fate::Run => is_end(outcome),
        Fate::Bypassed => matches!(outcome, Outcome::Bypassed),
        Fate::Flushed => matches!(outcome, Outcome::Flushed),
    }
}

/// Whether this is an outcome that the step at a place may have. There may be no such step.
fn is_of_fate_at(fates: &[Fate], place: usize, outcome: Outcome) -> bool
    ensures { IsTrue result ↔ IsOfFateAt (slice_get fates.now place) outcome }
{
    match fates.get(place) {
        Some(fate) => is_of_fate(*fate, outcome),
        None => false,
    }
}

/// Whether the outcomes on a path are those that as many first steps may have.
pub(crate) fn are_of_fates(fates: &[Fate], path: &[Outcome]) -> bool
    ensures { IsTrue result ↔ AreOfFates (take (length path.now) fates.now) path.now }
{
    for (place, outcome) in path.iter().enumerate() {
        if !is_of_fate_at(fates, place, *outcome) {
            return false;
        }
    }
    true
}
