//! Words of the listing that stand in a picture.
use crate::jobs::Jobs;
use crate::lane::StepName;
use jcl_plan::entry::{Entry, JobLine};
use jname_core::ds_name::DsName;
use jname_core::name8::Name8;
use plain::draft::Draft;
use plain::short::Short;
use std::alloc::AllocError;

/// A line's text.
pub(crate) fn text_of(entry: &Entry, draft: &mut Draft) -> Result<(), AllocError> {
    draft.clear();
    entry.write_to(draft)?;
    draft.keep();
    Ok(())
}

/// The bytes of a job's number before a line, and of a blank.
const NUMBER: usize = 5;

/// The first words of a job's line, its number left out.
pub(crate) fn first_words(line: &[u8], words: usize) -> &[u8] {
    let (_, text) = line.split_at(NUMBER.min(line.len()));
    let mut left = words;
    let mut end: usize = 0;
    for byte in text {
        if *byte == b' ' {
            left = left.saturating_sub(1);
        }
        if left == 0 || *byte == b'\n' {
            break;
        }
        end = end.saturating_add(1);
    }
    let (front, _) = text.split_at(end.min(text.len()));
    front
}

/// How many words of a line stand below its event, and whether they come before those of other lines.
pub(crate) fn words_below(line: &JobLine) -> Option<(usize, bool)> {
    match line {
        JobLine::WaitSpace(_) => Some((3, true)),
        JobLine::Assured { .. } => Some((1, false)),
        JobLine::Code(_) => Some((2, false)),
        JobLine::TooMany(_) | JobLine::Refused | JobLine::Cancelled => Some((1, true)),
        JobLine::Risk { .. } | JobLine::Broken(_) | JobLine::Fault { .. } | JobLine::Abend(_) => {
            Some((2, true))
        }
        _ => None,
    }
}

/// What a job waits for that cannot have its names.
pub(crate) fn wait_text(
    holder: u16,
    name: DsName,
    jobs: &Jobs,
    draft: &mut Draft,
) -> Result<(), AllocError> {
    draft.clear();
    draft.push(b"WAIT ")?;
    draft.push(name.as_slice())?;
    draft.push(b" OF ")?;
    draft.push(jobs.name_of(holder))?;
    draft.keep();
    Ok(())
}

fn short_of(text: &[u8]) -> StepName {
    if text.len() <= 17 {
        Short::new(text)
    } else {
        Short::new(b"")
    }
}

/// The name of a step, as lines have it.
pub(crate) fn step_name(
    name: &Option<Name8>,
    procedure_step: &Option<Name8>,
    draft: &mut Draft,
) -> Result<StepName, AllocError> {
    draft.clear();
    match name {
        Some(name) => draft.push(name.as_slice())?,
        None => draft.push(b"-")?,
    }
    if let Some(inner) = procedure_step {
        draft.push(b".")?;
        draft.push(inner.as_slice())?;
    }
    draft.keep();
    Ok(short_of(draft.kept()))
}
