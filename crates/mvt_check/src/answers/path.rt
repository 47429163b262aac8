//! How the steps end that lead to a fault.
use crate::answers::names::{Shown, push_number, push_subject};
use jcl_plan::outcome::Outcome;
use std::alloc::AllocError;

/// What stands before the outcome at this place, of so many.
fn joint_at(place: usize, count: usize) -> &'static [u8] {
    if place == 0 {
        b", for example when "
    } else if place.saturating_add(1) == count {
        b" and "
    } else {
        b", "
    }
}

/// Whether a step ended, by a code or an ABEND.
fn is_ended(outcome: &Outcome) -> bool {
    match outcome {
        Outcome::Code(_) | Outcome::Abend(_) => true,
        Outcome::Bypassed | Outcome::Flushed => false,
    }
}

/// What became of a step. The word `ends` is left out behind a step that ends too.
fn push_outcome(text: &mut Vec<u8>, outcome: &Outcome, behind_end: bool) -> Result<(), AllocError> {
    if is_ended(outcome) && !behind_end {
        text.extend_from_slice(b" ends")?;
    }
    match outcome {
        Outcome::Code(code) => {
            text.extend_from_slice(b" with code ")?;
            push_number(text, u64::from(code.number()))
        }
        Outcome::Abend(_) => text.extend_from_slice(b" abnormally"),
        Outcome::Bypassed => text.extend_from_slice(b" is bypassed"),
        Outcome::Flushed => text.extend_from_slice(b" is flushed"),
    }
}

/// Whether all steps end with code 0, of which there are two at least.
fn are_all_zero(path: &[Outcome]) -> bool {
    path.len() > 1
        && path.iter().all(|outcome| match outcome {
            Outcome::Code(code) => code.number() == 0,
            _ => false,
        })
}

/// The outcomes of the steps, each by itself.
fn push_each(text: &mut Vec<u8>, shown: Shown<'_, '_>, path: &[Outcome]) -> Result<(), AllocError> {
    let mut behind_end = false;
    for (place, outcome) in path.iter().enumerate() {
        text.extend_from_slice(joint_at(place, path.len()))?;
        push_subject(text, shown, place.saturating_add(1))?;
        push_outcome(text, outcome, behind_end)?;
        behind_end = is_ended(outcome);
    }
    Ok(())
}

/// The outcomes of the steps, from the first on; nothing where there are none.
pub(crate) fn push_path(
    text: &mut Vec<u8>,
    shown: Shown<'_, '_>,
    path: &[Outcome],
) -> Result<(), AllocError> {
    if are_all_zero(path) {
        text.extend_from_slice(b", for example when the ")?;
        push_number(text, path.len() as u64)?;
        return text.extend_from_slice(b" steps before it end with code 0");
    }
    push_each(text, shown, path)
}
