//! The fault that a line has by itself, and its place.
use crate::fields::{Field, field_at};
use crate::forms::{Form, form_of};
use crate::statement::statement_finding;
use crate::unknown::{unmarked_finding, word_finding};
use std::alloc::{AllocError, Global};

/// Why a line is refused.
#[derive(Clone, Copy)]
pub(crate) enum Reason {
    Told(&'static str),
    /// A field is missing, of a statement of this form.
    Missing {
        name: &'static str,
        shape: &'static str,
    },
    /// A field more than a statement of this form has.
    OneMore {
        shape: &'static str,
    },
}

/// A fault of a line, by its number, its column and its reason.
#[derive(Clone, Copy)]
pub(crate) struct Finding {
    pub(crate) number: u8,
    pub(crate) column: usize,
    pub(crate) reason: Reason,
    /// A word that may have been meant.
    pub(crate) guess: Option<&'static str>,
}

impl Finding {
    pub(crate) fn told(number: u8, column: usize, reason: &'static str) -> Finding {
        Finding {
            number,
            column,
            reason: Reason::Told(reason),
            guess: None,
        }
    }
}

/// The word behind `./` and a blank.
fn word_at<'a>(line: &'a [u8]) -> Option<Field<'a>> {
    if line.starts_with(b"./ ") {
        field_at(line, 1)
    } else {
        None
    }
}

/// The form of the statement that a line begins.
pub(crate) fn form_at(line: &[u8]) -> Option<&'static Form> {
    match word_at(line) {
        Some(word) => form_of(word.bytes),
        None => None,
    }
}

/// The first fault of a line outside a block, by itself.
pub(crate) fn finding_of(alloc: Global, line: &[u8]) -> Result<Option<Finding>, AllocError> {
    let Some(word) = word_at(line) else {
        return Ok(unmarked_finding(line));
    };
    match form_of(word.bytes) {
        Some(form) => statement_finding(alloc, line, form),
        None => Ok(Some(word_finding(alloc, word)?)),
    }
}
