//! What is wrong with the fields of a statement.
use crate::fields::{Field, field_at, without_blanks};
use crate::finding::{Finding, Reason};
use crate::forms::{Form, Value};
use crate::guess::word_if_near;
use crate::lists::{
    MOST_OF_A_BASE, MOST_OF_A_NAME, classes_fault, date_fault, names_fault, set_name_fault,
    turns_fault, used_fault, writes_fault, zap_fault,
};
use crate::values::{
    INITIATOR, JOB, LIMIT, NAME, SERIAL, SET_TRACKS, TAB, TRACKS, UNIT_NAME, Wrong, name_fault,
    number_fault, number_of,
};
use std::alloc::{AllocError, Global};

/// The tracks of the volume that a line configures.
fn tracks_of(line: &[u8]) -> u32 {
    match field_at(line, 3) {
        Some(field) => number_of(field.bytes),
        None => 0,
    }
}

/// What is wrong with a field that can be one word alone.
fn word_fault(value: Value, text: &[u8], reason: &'static str) -> Option<Wrong> {
    match value.word() {
        Some(word) if word.as_bytes() != text => Some(Wrong { at: 0, reason }),
        _ => None,
    }
}

/// What is wrong with a value.
fn value_fault(line: &[u8], value: Value, text: &[u8]) -> Option<Wrong> {
    match value {
        Value::Serial => name_fault(&SERIAL, text),
        Value::Tracks => number_fault(&TRACKS, text),
        Value::Used => word_fault(
            value,
            text,
            "after the tracks comes nothing, or USED and a list",
        ),
        Value::UsedTracks => used_fault(text, tracks_of(line)),
        Value::UnitName => name_fault(&UNIT_NAME, text),
        Value::Serials => names_fault(&SERIAL, text, b','),
        Value::Base => set_name_fault(
            text,
            MOST_OF_A_BASE,
            "a group's base has at most 35 characters",
        ),
        Value::Limit => number_fault(&LIMIT, text),
        Value::Scratch => word_fault(value, text, "after the limit comes nothing, or SCRATCH"),
        Value::SetName => set_name_fault(
            text,
            MOST_OF_A_NAME,
            "a data set name has at most 44 characters",
        ),
        Value::SetTracks => number_fault(&SET_TRACKS, text),
        Value::Cat => word_fault(
            value,
            text,
            "after the tracks comes nothing, CAT, or EXPDT and a date",
        ),
        Value::Expdt => word_fault(value, text, "after CAT comes nothing, or EXPDT and a date"),
        Value::Date => date_fault(text),
        Value::Name => name_fault(&NAME, text),
        Value::Initiator => number_fault(&INITIATOR, text),
        Value::Classes => classes_fault(text),
        Value::Turns => turns_fault(text),
        Value::Writes => writes_fault(text),
        Value::Job => number_fault(&JOB, text),
        Value::Zap => zap_fault(text),
    }
}

/// What is said of a blank beside the character that joins a field's parts.
fn joint_reason(joint: u8) -> &'static str {
    if joint == b',' {
        "no blank is before or after a comma"
    } else {
        "no blank is before or after *"
    }
}

/// A blank beside the character that joins a field's parts, where another field stands behind it.
fn blank_finding(value: Value, field: Field<'_>, next: Option<Field<'_>>) -> Option<Finding> {
    let Some(joint) = value.joint() else {
        return None;
    };
    let Some(next) = next else { return None };
    let (text, other) = (field.bytes, next.bytes);
    if text.last() == Some(&joint) || other.first() == Some(&joint) {
        Some(Finding::told(2, field.end(), joint_reason(joint)))
    } else {
        None
    }
}

/// What is wrong with a field that is there.
fn field_finding(
    line: &[u8],
    value: Value,
    field: Field<'_>,
    next: Option<Field<'_>>,
) -> Option<Finding> {
    if let Some(column) = field.tab() {
        return Some(Finding::told(2, column, TAB));
    }
    if let Some(finding) = blank_finding(value, field, next) {
        return Some(finding);
    }
    match value_fault(line, value, field.bytes) {
        Some(wrong) => {
            let column = field.column.saturating_add(wrong.at);
            Some(Finding::told(2, column, wrong.reason))
        }
        None => None,
    }
}

/// Whether a field is one that stands behind a word.
fn is_behind_word(value: Value) -> bool {
    value == Value::UsedTracks || value == Value::Date
}

/// Whether a statement has a field there.
fn is_needed(line: &[u8], form: &Form, n: usize, value: Value) -> bool {
    n < form.needed || (is_behind_word(value) && field_at(line, n.saturating_add(1)).is_some())
}

/// The fields of a SET that has EXPDT and no CAT.
static SET_WITHOUT_CAT: [Value; 5] = [
    Value::SetName,
    Value::Serial,
    Value::SetTracks,
    Value::Expdt,
    Value::Date,
];

/// The fields of a statement of this form, as this line has them.
fn values_on(line: &[u8], form: &Form) -> &'static [Value] {
    match field_at(line, 5) {
        Some(field) if form.word == "SET" && field.bytes == b"EXPDT".as_slice() => {
            SET_WITHOUT_CAT.as_slice()
        }
        _ => form.values,
    }
}

/// What is wrong with the field that has this number behind the word.
fn finding_at(line: &[u8], form: &Form, n: usize, value: Value) -> Option<Finding> {
    let place = n.saturating_add(2);
    match field_at(line, place) {
        Some(field) => field_finding(line, value, field, field_at(line, place.saturating_add(1))),
        None if is_needed(line, form, n, value) => Some(Finding {
            number: 2,
            column: without_blanks(line).len().saturating_add(1),
            reason: Reason::Missing {
                name: value.name(),
                shape: form.shape,
            },
            guess: None,
        }),
        None => None,
    }
}

/// A field behind those that a statement of this form has.
fn one_more_finding(line: &[u8], form: &Form) -> Option<Finding> {
    match field_at(line, values_on(line, form).len().saturating_add(2)) {
        Some(field) => Some(Finding {
            number: 2,
            column: field.column,
            reason: Reason::OneMore { shape: form.shape },
            guess: None,
        }),
        None => None,
    }
}

/// The word that may have been meant by the field that has this number behind the word.
fn guess_at(
    alloc: Global,
    line: &[u8],
    n: usize,
    value: Value,
) -> Result<Option<&'static str>, AllocError> {
    match (value.word(), field_at(line, n.saturating_add(2))) {
        (Some(word), Some(field)) => word_if_near(alloc, field.bytes, word),
        _ => Ok(None),
    }
}

/// A program's name that is there in every session.
fn taken_name_finding(line: &[u8], form: &Form) -> Option<Finding> {
    match field_at(line, 2) {
        Some(field) if form.word == "PROGRAM" && field.bytes == b"IEFBR14".as_slice() => {
            Some(Finding::told(
                3,
                field.column,
                "IEFBR14 is there in every session: give the program another name",
            ))
        }
        _ => None,
    }
}

/// What is wrong with the fields of a statement of this form.
pub(crate) fn statement_finding(
    alloc: Global,
    line: &[u8],
    form: &Form,
) -> Result<Option<Finding>, AllocError> {
    for (n, value) in values_on(line, form).iter().enumerate() {
        if let Some(found) = finding_at(line, form, n, *value) {
            let mut finding = found;
            finding.guess = guess_at(alloc, line, n, *value)?;
            return Ok(Some(finding));
        }
    }
    match one_more_finding(line, form) {
        Some(finding) => Ok(Some(finding)),
        None => Ok(taken_name_finding(line, form)),
    }
}

/// Of a line that is right by itself: a configuration statement, where it stands behind an event.
pub(crate) fn late_finding(form: &Form, line: &[u8]) -> Option<Finding> {
    match field_at(line, 1) {
        Some(word) if form.is_configuration => Some(Finding::told(
            8,
            word.column,
            "this is configuration: move it up, before the first event",
        )),
        _ => None,
    }
}
