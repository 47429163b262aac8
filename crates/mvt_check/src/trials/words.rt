//! What is said of a job that was tried.
use crate::answers::answer::Answer;
use crate::answers::risk::{Met, push_risk};
use crate::answers::words::push_verdict;
use crate::trials::run::Tried;
use jcl_plan::entry::JobLine;
use jcl_plan::fault::Fault;
use jcl_plan::outcome::Outcome;
use jcl_plan::plan::JobPlan;
use jcl_plan::words::DispWord;
use std::alloc::{AllocError, Global};

/// A fault that lines tell, where it is met, and how many lines tell it, the last of them its own.
#[derive(Clone, Copy)]
struct Told {
    fault: Fault,
    step: usize,
    dd: usize,
    count: usize,
}

/// The fault of a disposition.
fn fault_of(word: DispWord) -> Option<Fault> {
    match word {
        DispWord::F3 => Some(Fault::F3),
        DispWord::F4 => Some(Fault::F4),
        DispWord::F8 => Some(Fault::F8),
        _ => None,
    }
}

/// The fault that a line of this step tells, with the step and the DD that meet it.
fn fault_in(line: &JobLine, running: usize) -> Option<(Fault, usize, usize)> {
    match line {
        JobLine::Fault { fault, step, dd } => Some((*fault, *step, *dd)),
        JobLine::Disp { dd, name: _, word } => Some((fault_of(*word)?, running, *dd)),
        JobLine::Left {
            step,
            dd,
            name: _,
            word,
        } => Some((fault_of(*word)?, *step, *dd)),
        _ => None,
    }
}

/// The first fault that these lines tell.
fn first_fault(lines: &[JobLine]) -> Option<Told> {
    let mut running = 0;
    for (place, line) in lines.iter().enumerate() {
        if let JobLine::Step { step, .. } = line {
            running = *step;
        }
        if let Some((fault, step, dd)) = fault_in(line, running) {
            return Some(Told {
                fault,
                step,
                dd,
                count: place.saturating_add(1),
            });
        }
    }
    None
}

/// That fault, and the lines up to it.
pub(crate) fn first_met(lines: &[JobLine]) -> Option<Met<'_>> {
    let told = first_fault(lines)?;
    let (front, _) = lines.split_at(told.count.min(lines.len()));
    Some(Met {
        fault: told.fault,
        step: told.step,
        dd: told.dd,
        path: &[],
        lines: front,
        naming: &[],
        before: &[],
        day: None,
    })
}

/// Whether steps end by codes other than 0, or abnormally.
fn are_other(path: &[Outcome]) -> bool {
    path.iter().any(|outcome| match outcome {
        Outcome::Code(code) => code.number() != 0,
        Outcome::Abend(_) => true,
        Outcome::Bypassed | Outcome::Flushed => false,
    })
}

/// Whether a run by itself tells what an answer does not: what comes of a job that may fail where each step ends with code 0; and what is answered once more.
pub(crate) fn asks_trial(answer: &Answer, again: bool) -> bool {
    match answer {
        Answer::Risk { path, .. } => are_other(path.as_slice()),
        Answer::Assured { .. } => again,
        _ => false,
    }
}

/// A text up to the end of its first line.
fn first_line(text: &[u8]) -> &[u8] {
    let count = text.iter().take_while(|c| **c != b'\n').count();
    let (line, _) = text.split_at(count.min(text.len()));
    line
}

/// What the job meets that is tried.
fn push_met(text: &mut Vec<u8>, plan: &JobPlan, tried: &Tried) -> Result<(), AllocError> {
    let Some(met) = first_met(tried.lines.as_slice()) else {
        return text.extend_from_slice(b" it ends well\n");
    };
    let mut words = Vec::new(*text.allocator());
    let day = tried.day;
    push_risk(&mut words, plan, &Met { day, ..met })?;
    text.extend_from_slice(b": ")?;
    text.extend_from_slice(first_line(words.as_slice()))?;
    text.push(b'\n')?;
    Ok(())
}

/// What is said of a job that was answered this, behind that.
pub(crate) fn trial_words(
    alloc: Global,
    plan: &JobPlan,
    answer: Option<&Answer>,
    tried: Option<&Tried>,
) -> Result<Vec<u8>, AllocError> {
    let mut text = Vec::new(alloc);
    match (answer, tried) {
        (Some(Answer::Risk { .. }), Some(tried)) => {
            text.extend_from_slice(b"    with code 0 from each step")?;
            push_met(&mut text, plan, tried)?;
        }
        (Some(Answer::Risk { path, .. }), None) => {
            if !path.as_slice().is_empty() && !are_other(path.as_slice()) {
                text.extend_from_slice(b"    with code 0 from each step it fails like this\n")?;
            }
        }
        (Some(Answer::Assured { .. }), Some(tried)) => {
            if let Some(again) = &tried.again {
                text.extend_from_slice(b"    run again, it")?;
                let before = tried.lines.as_slice();
                push_verdict(&mut text, plan, &again.answer, before, again.day)?;
            }
        }
        _ => {}
    }
    Ok(text)
}
