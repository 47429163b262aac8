//! Lines that are no statement.
use crate::fields::{Field, field_at};
use crate::finding::{Finding, Reason};
use crate::guess::nearest_statement;
use crate::values::TAB;
use std::alloc::{AllocError, Global};

const NO_COMMENTS: &'static str = "a session has no comments: drop the line";

/// Whether a line begins as a comment does elsewhere.
fn is_comment(field: &[u8]) -> bool {
    field.starts_with(b"*") || field.starts_with(b"#")
}

/// Whether `./` stands there behind blanks and tabs.
fn is_indented(line: &[u8]) -> bool {
    let blanks = line
        .iter()
        .take_while(|c| **c == b' ' || **c == b'\t')
        .count();
    let (_, text) = line.split_at(blanks.min(line.len()));
    blanks > 0 && text.starts_with(b"./")
}

/// What is wrong with a line that has no word behind `./` and a blank, and the column of it.
fn unmarked_reason(line: &[u8], first: Field<'_>) -> (usize, &'static str) {
    let Field { column, bytes } = first;
    if bytes.starts_with(b"//") || bytes.starts_with(b"/*") {
        let reason = "a card outside a block: put a deck between ./ READ and ./ END";
        (column, reason)
    } else if is_indented(line) {
        (0, "./ is in columns 1 and 2: drop what is before it")
    } else if bytes == b"./".as_slice() {
        (3, "a word is missing after ./")
    } else if bytes.starts_with(b"./\t") {
        (2, TAB)
    } else if bytes.starts_with(b"./") {
        (2, "a blank is missing between ./ and the word")
    } else if is_comment(bytes) {
        (column, NO_COMMENTS)
    } else {
        let reason = "no ./ in front: each line outside a block begins with ./ and a blank";
        (column, reason)
    }
}

/// What is wrong with a line that has no word behind `./` and a blank, unless it is blank.
pub(crate) fn unmarked_finding(line: &[u8]) -> Option<Finding> {
    match field_at(line, 0) {
        Some(first) => {
            let (column, reason) = unmarked_reason(line, first);
            Some(Finding::told(1, column, reason))
        }
        None => None,
    }
}

/// What is said of a word that begins no statement, if a word may have been meant or not.
fn word_reason(word: &[u8], has_guess: bool) -> &'static str {
    if word.iter().any(|c| c.is_ascii_lowercase()) {
        "words are capitals"
    } else if has_guess {
        "no statement has this word"
    } else {
        "no statement has this word: VOLUME, UNIT, GROUP, SET, PROC, PROGRAM, INIT; READ, TURN, WRITE, DEV, CANCEL, ZAP, DISPLAY, DATE"
    }
}

/// What is wrong with a line whose word begins no statement.
pub(crate) fn word_finding(alloc: Global, word: Field<'_>) -> Result<Finding, AllocError> {
    if let Some(column) = word.tab() {
        return Ok(Finding::told(1, column, TAB));
    }
    if word.bytes == b"END".as_slice() {
        let reason = "no block is open before this ./ END: drop it, or begin the block";
        return Ok(Finding::told(1, word.column, reason));
    }
    if is_comment(word.bytes) {
        return Ok(Finding::told(1, word.column, NO_COMMENTS));
    }
    let guess = nearest_statement(alloc, word.bytes)?;
    Ok(Finding {
        number: 1,
        column: word.column,
        reason: Reason::Told(word_reason(word.bytes, guess.is_some())),
        guess,
    })
}
