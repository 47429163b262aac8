//! The words for an answer.
ghost use Rattle.std.specs.Prelude.{◌≡◌, ℕ, ◌++◌, List, OnOk, option_map};
ghost use Rattle.mvt_check.specs.Words.{number_text, verdict_text, beginning};

use crate::answers::answer::Answer;
use crate::answers::names::{Shown, push_count, push_number, push_step};
use crate::answers::risk::{Met, push_risk};
use check_core::text::push_card;
use jcl_plan::entry::JobLine;
use jcl_plan::plan::JobPlan;
use std::alloc::{AllocError, Global};

/// What admission answers, behind the job's name.
fn verdict_of(answer: Option<&Answer>) -> &'static [u8]
    ensures { result.now ≡ verdict_text (option_map (λ a. a.now) answer.entry) }
{
    match answer {
        Some(Answer::Assured { .. }) => b" is ASSURED: ",
        Some(Answer::Risk { path, .. }) => {
            if path.as_slice().is_empty() {
                b" fails: "
            } else {
                b" is at RISK: "
            }
        }
        Some(Answer::TooMany(_)) => b" has too many paths (TOOMANY): ",
        Some(Answer::SpaceWait(_)) => b" waits for space (WAIT SPACE): ",
        None => b" is not looked at: ",
    }
}

/// The lines that name steps: these, or none where a trial wrote them.
fn naming_of(lines: &[JobLine], tried: bool) -> &[JobLine] {
    if tried { &[] } else { lines }
}

/// The lines of the run before, if there is one.
fn before_in<'a>(before: &Option<&'a [JobLine]>) -> &'a [JobLine] {
    match *before {
        Some(lines) => lines,
        None => &[],
    }
}

/// What is said of an answer, which was given in the session, or in a trial behind a run of these lines, with the day of its data set.
fn push_said(
    text: &mut Vec<u8>,
    plan: &JobPlan,
    answer: Option<&Answer>,
    before: Option<&[JobLine]>,
    day: Option<u32>,
) -> Result<(), AllocError> {
    match answer {
        Some(Answer::Assured { tracks, actions }) => {
            push_count(text, *tracks, b"track")?;
            text.extend_from_slice(if *tracks == 1 { b" is" } else { b" are" })?;
            text.extend_from_slice(b" kept for it, and it writes at most ")?;
            push_count(text, *actions, b"line")?;
            text.extend_from_slice(b" from there on")
        }
        Some(
            Answer::Risk {
                fault,
                step,
                dd,
                path,
                lines,
            },
        ) => push_risk(
            text,
            plan,
            &Met {
                fault: *fault,
                step: *step,
                dd: *dd,
                path: path.as_slice(),
                lines: lines.as_slice(),
                naming: naming_of(lines.as_slice(), before.is_some()),
                before: before_in(&before),
                day,
            },
        ),
        Some(Answer::TooMany(step)) => {
            text.extend_from_slice(b"after ")?;
            push_step(text, Shown { plan, lines: &[] }, *step)?;
            text.extend_from_slice(b" more views than --views allows; up to there nothing fails")
        }
        Some(Answer::SpaceWait(serial)) => {
            text.extend_from_slice(b"volume ")?;
            text.extend_from_slice(serial.as_slice())?;
            text.extend_from_slice(
                b" has no room for a set that it may make, up to the end of the session",
            )
        }
        None => text.extend_from_slice(b"it does not reach its admission in this session"),
    }
}

/// What is said of an answer, with the line's end.
fn said_of(
    alloc: Global,
    plan: &JobPlan,
    answer: Option<&Answer>,
    before: Option<&[JobLine]>,
    day: Option<u32>,
) -> Result<Vec<u8>, AllocError> {
    let mut text = Vec::new(alloc);
    push_said(&mut text, plan, answer, before, day)?;
    text.push(b'\n')?;
    Ok(text)
}

/// What is answered once more, behind a run of these lines, with the line's end.
pub(crate) fn push_verdict(
    text: &mut Vec<u8>,
    plan: &JobPlan,
    answer: &Answer,
    before: &[JobLine],
    day: Option<u32>,
) -> Result<(), AllocError> {
    match answer {
        Answer::Assured { .. } => text.extend_from_slice(b" is ASSURED\n"),
        Answer::SpaceWait(serial) => {
            text.extend_from_slice(b" waits for space (WAIT SPACE) on volume ")?;
            text.extend_from_slice(serial.as_slice())?;
            text.extend_from_slice(b"\n")
        }
        _ => {
            let said = said_of(*text.allocator(), plan, Some(answer), Some(before), day)?;
            text.extend_from_slice(verdict_of(Some(answer)))?;
            text.extend_from_slice(said.as_slice())
        }
    }
}

/// The number of a job, if it has one, and a blank.
fn push_job_number(text: &mut Vec<u8>, job: Option<u16>) -> Result<(), AllocError>
    ensures { OnOk result (text.new.items ≡ text.old.items ++ number_text job) }
{
    if let Some(job) = job {
        push_number(text, u64::from(job))?;
        text.push(b' ')?;
    }
    Ok(())
}

/// What is said of an answer in the session, with a card behind its first line.
fn said_with(
    alloc: Global,
    plan: &JobPlan,
    answer: Option<&Answer>,
    day: Option<u32>,
    card: Option<&[u8]>,
) -> Result<Vec<u8>, AllocError> {
    let said = said_of(alloc, plan, answer, None, day)?;
    match card {
        Some(card) => with_card(alloc, said.as_slice(), card),
        None => Ok(said),
    }
}

/// What is said, with a card behind its first line.
fn with_card(alloc: Global, said: &[u8], card: &[u8]) -> Result<Vec<u8>, AllocError> {
    let line = said.iter().take_while(|c| **c != b'\n').count();
    let (first, behind) = said.split_at(line.saturating_add(1).min(said.len()));
    let mut text = Vec::from_slice(alloc, first)?;
    push_card(&mut text, card)?;
    text.extend_from_slice(behind)?;
    Ok(text)
}

/// Writes what admission answers the job of a deck, which has this number: a line, the card of which it tells, and what can be done about it. It is told at
/// this line of the session, which counts from 1, and the plan is what the deck denotes; its data set is not to be deleted before this day, where that is known.
pub fn push_answer(
    out: &mut Vec<u8>,
    line: usize,
    plan: &JobPlan,
    job: Option<u16>,
    answer: Option<&Answer>,
    day: Option<u32>,
    card: Option<&[u8]>,
) -> Result<(), AllocError>
    ensures { OnOk result ((rest : List ℕ) × (out.new.items ≡ out.old.items ++ beginning line job plan.now.name (option_map (λ a. a.now) answer.entry) ++ rest)) }
{
    let said = said_with(*out.allocator(), plan, answer, day, card)?;
    out.extend_from_slice(b"line ")?;
    push_number(out, line as u64)?;
    out.extend_from_slice(b": job ")?;
    push_job_number(out, job)?;
    out.extend_from_slice(plan.name.as_slice())?;
    out.extend_from_slice(verdict_of(answer))?;
    out.extend_from_slice(said.as_slice())
}
