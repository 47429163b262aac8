//! What is wrong with a line of a session, and what to do.
ghost use Rattle.std.specs.Prelude.{OnOk};
ghost use Rattle.session_words.specs.Words.{GoesOn};

use crate::finding::{Finding, Reason, finding_of, form_at};
use crate::forms::Form;
use crate::statement::late_finding;
use refusal_text::table::row_of;
use std::alloc::{AllocError, Global};

/// The most columns of a line that are shown.
const COLUMNS: usize = 100;

/// The line without a carriage return at its end.
fn without_return(line: &[u8]) -> &[u8] {
    match line.split_last() {
        Some((b'\r', before)) => before,
        _ => line,
    }
}

/// Whether a character leaves a trace on a page.
fn is_visible(c: u8) -> bool {
    b'!' <= c && c <= b'~'
}

/// The columns of a line that are shown.
fn columns_of(line: &[u8]) -> &[u8] {
    let (columns, _) = line.split_at(line.len().min(COLUMNS));
    let blanks = columns
        .iter()
        .rev()
        .take_while(|c| !is_visible(**c))
        .count();
    let (shown, _) = columns.split_at(columns.len().saturating_sub(blanks));
    shown
}

/// Puts a line behind a text: what is no printable character is a blank. A line of blanks is left out.
fn push_line(text: &mut Vec<u8>, line: &[u8]) -> Result<(), AllocError> {
    let columns = columns_of(line);
    if columns.is_empty() {
        return Ok(());
    }
    text.extend_from_slice(b"    ")?;
    for c in columns {
        text.push(if is_visible(*c) { *c } else { b' ' })?;
    }
    text.push(b'\n')?;
    Ok(())
}

/// Puts a mark below a column behind a text, where that column is shown.
fn push_mark(text: &mut Vec<u8>, column: usize) -> Result<(), AllocError> {
    if column >= COLUMNS {
        return Ok(());
    }
    for blank in 0..column.saturating_add(4) {
        text.push(b' ')?;
    }
    text.extend_from_slice(b"^\n")?;
    Ok(())
}

/// Puts these pieces behind a text, as one line.
fn push_pieces(text: &mut Vec<u8>, pieces: &[&str]) -> Result<(), AllocError> {
    text.extend_from_slice(b"    ")?;
    for piece in pieces {
        text.extend_from_slice(piece.as_bytes())?;
    }
    text.push(b'\n')?;
    Ok(())
}

/// Puts the place and the reason of a fault behind a text.
fn push_finding(text: &mut Vec<u8>, finding: &Finding) -> Result<(), AllocError> {
    push_mark(text, finding.column)?;
    match (finding.reason, finding.guess) {
        (Reason::Told(reason), Some(guess)) => {
            push_pieces(text, &[reason, "; did you mean ", guess, "?"])
        }
        (Reason::Told(reason), None) => push_pieces(text, &[reason]),
        (Reason::Missing { name, shape }, _) => {
            push_pieces(text, &[name, " is missing: ", shape])
        }
        (Reason::OneMore { shape }, _) => push_pieces(text, &["one field too many: ", shape]),
    }
}

/// Puts what is said of a number behind a text.
fn push_sentence(text: &mut Vec<u8>, number: u8) -> Result<(), AllocError> {
    match row_of(b'S', number) {
        Some(row) => push_pieces(text, &[row.wrong, ": ", row.to_do]),
        None => Ok(()),
    }
}

/// What a number means of a statement of this form whose line is right by itself.
fn meaning_of(form: &Form, number: u8) -> Option<&'static str> {
    match number {
        2 => form.refused,
        3 => form.twice,
        _ => None,
    }
}

/// Puts what a number means of a line behind a text that has by itself no fault of it or of a lower one.
fn push_meaning(text: &mut Vec<u8>, number: u8, line: &[u8]) -> Result<(), AllocError> {
    let Some(form) = form_at(line) else {
        return push_sentence(text, number);
    };
    if number == 8 {
        if let Some(late) = late_finding(form, line) {
            return push_finding(text, &late);
        }
    }
    match meaning_of(form, number) {
        Some(meaning) => push_pieces(text, &[meaning]),
        None => push_sentence(text, number),
    }
}

/// What is wrong with a line that has the fault of a number, and what to do.
fn words_of(alloc: Global, number: u8, line: &[u8]) -> Result<Vec<u8>, AllocError> {
    let line = without_return(line);
    let finding = finding_of(alloc, line)?;
    let mut text = Vec::new(alloc);
    push_line(&mut text, line)?;
    match finding {
        Some(finding) if finding.number == number => push_finding(&mut text, &finding)?,
        Some(finding) if finding.number < number => push_sentence(&mut text, number)?,
        _ => push_meaning(&mut text, number, line)?,
    }
    Ok(text)
}

/// Adds what is wrong with a line of a session that has the fault of this number, S1 to S8, and what to do.
///
/// The line is shown first, at most 100 columns of it. If it has by itself the fault of this number, the place is marked, and the reason follows: for `./ INIT 1 P` and S2 a mark below the P, and `a class is A to O`. Else what the number means follows.
pub fn push_fault_words(text: &mut Vec<u8>, number: u8, line: &[u8]) -> Result<(), AllocError>
    ensures { OnOk result (GoesOn text.old.items text.new.items) }
{
    let words = words_of(*text.allocator(), number, line)?;
    text.extend_from_slice(words.as_slice())?;
    Ok(())
}
