//! Refusals as text.
ghost use Rattle.std.specs.Prelude.{◌≡◌, ◌++◌, ◌∷◌, IfOk, OnOk, Some, decimal, map, replicate, take};
ghost use Rattle.jcl_plan.specs.Texts.{cause_text};
ghost use Rattle.check_core.specs.Texts.{AddsRefusedText, AddsToldText, TellsPlace, card_text, column_count, cut_mark, has_text, head, inside_text, is_cut, line_of, mark_text, marked_text, of_session_text, shown, spot_text};
ghost use Rattle.check_core.specs.Warnings.{warned_of};

use crate::report::{Checked, Inside, Report, Spot};
use crate::warnings::{Warned, count_before, push_warned, warnings_of};
use card_core::statement::Card;
use itoa::Buffer;
use jcl_plan::fault::Cause;
use refusal_text::table::row_of;
use std::alloc::{AllocError, Global};

/// The most columns of a card that are shown.
const COLUMNS: usize = 80;

/// How many columns of a statement's card are read.
const FIELD_END: usize = 71;

/// The letter and the number of a refusal.
fn number_of(cause: Cause) -> (u8, u8) {
    match cause {
        Cause::C(number) => (b'C', number),
        Cause::N(number) => (b'N', number),
        Cause::P(fault) => (b'P', fault.number()),
        Cause::Q(fault) => (b'Q', fault.number()),
        Cause::B(number) => (b'B', number),
        Cause::A(fault) => (b'A', fault.number()),
    }
}

fn push_number(text: &mut Vec<u8>, number: usize) -> Result<(), AllocError>
    ensures { OnOk result (text.new.items ≡ text.old.items ++ decimal number) }
{
    let mut buffer = Buffer::new();
    text.extend_from_slice(buffer.format(number as u64).as_bytes())?;
    Ok(())
}

/// Puts a letter and a number behind a text.
fn push_lettered(text: &mut Vec<u8>, letter: u8, number: u8) -> Result<(), AllocError>
    ensures { OnOk result (text.new.items ≡ text.old.items ++ letter ∷ decimal number) }
{
    text.push(letter)?;
    push_number(text, usize::from(number))
}

/// Puts the letter and the number of a refusal behind a text.
fn push_cause(text: &mut Vec<u8>, cause: Cause) -> Result<(), AllocError>
    ensures { OnOk result (text.new.items ≡ text.old.items ++ cause_text cause) }
{
    match cause {
        Cause::C(number) => push_lettered(text, b'C', number),
        Cause::N(number) => push_lettered(text, b'N', number),
        Cause::P(fault) => push_lettered(text, b'P', fault.number()),
        Cause::Q(fault) => push_lettered(text, b'Q', fault.number()),
        Cause::B(number) => push_lettered(text, b'B', number),
        Cause::A(fault) => push_lettered(text, b'A', fault.number()),
    }
}

/// Puts the beginning of what is told of a refusal behind a text.
fn push_head(text: &mut Vec<u8>, line: usize, cause: Cause) -> Result<(), AllocError>
    ensures { OnOk result (text.new.items ≡ text.old.items ++ head line cause) }
{
    text.extend_from_slice(b"line ")?;
    push_number(text, line)?;
    text.extend_from_slice(b": ")?;
    push_cause(text, cause)?;
    text.push(b' ')?;
    Ok(())
}

/// The line of the session on which a card stands. The deck's first card stands on the first of these lines; where the deck has none, it is the line before.
fn line_of(first_line: usize, card: Option<usize>) -> Result<usize, AllocError>
    ensures { IfOk result (λ line. line ≡ line_of first_line card) }
{
    let line = match card {
        Some(n) => first_line.checked_add(n),
        None => Some(first_line.saturating_sub(1)),
    };
    match line {
        Some(line) => Ok(line),
        None => Err(AllocError),
    }
}

/// A character as it can be printed.
fn shown(c: u8) -> u8
    ensures { result ≡ shown c }
{
    if 0x20 <= c && c <= 0x7e { c } else { b'?' }
}

/// Whether a card has text in a column, which counts from 0.
fn has_text(card: &[u8], column: usize) -> bool
    ensures { result ≡ has_text column card.now }
{
    match card.get(column) {
        Some(c) => *c != b' ',
        None => false,
    }
}

/// Whether the text of a statement goes on behind the last column that is read.
fn is_cut(card: &[u8]) -> bool
    ensures { result ≡ is_cut card.now }
{
    card.starts_with(b"//".as_slice())
        && !card.starts_with(b"//*".as_slice())
        && has_text(card, FIELD_END - 1)
        && has_text(card, FIELD_END)
}

/// The first columns of a card.
fn first_columns(card: &[u8], count: usize) -> &[u8]
    ensures { result.now ≡ take count card.now }
{
    if count < card.len() {
        let (columns, _) = card.split_at(count);
        columns
    } else {
        card
    }
}

/// How many columns of a card are shown.
fn column_count(cut: bool) -> usize
    ensures { result ≡ column_count cut }
{
    if cut { FIELD_END } else { COLUMNS }
}

/// Puts the mark of a cut behind a text.
fn push_cut(text: &mut Vec<u8>, cut: bool) -> Result<(), AllocError>
    ensures { OnOk result (text.new.items ≡ text.old.items ++ cut_mark cut) }
{
    if cut {
        text.push(b'|')?;
    }
    Ok(())
}

/// Puts characters behind a text, as they can be printed.
fn push_shown(text: &mut Vec<u8>, columns: &[u8]) -> Result<(), AllocError>
    ensures { OnOk result (text.new.items ≡ text.old.items ++ map shown columns.now) }
{
    for c in columns {
        text.push(shown(*c))?;
    }
    Ok(())
}

/// A card as it can be printed: what is no printable character is a question mark. A statement whose text is cut at column 71 is shown so far, with a bar
/// behind it.
pub fn push_card(text: &mut Vec<u8>, card: &[u8]) -> Result<(), AllocError>
    ensures { OnOk result (text.new.items ≡ text.old.items ++ card_text card.now) }
{
    let cut = is_cut(card);
    text.extend_from_slice(b"    ")?;
    push_shown(text, first_columns(card, column_count(cut)))?;
    push_cut(text, cut)?;
    text.push(b'\n')?;
    Ok(())
}

/// Puts blanks behind a text.
fn push_blanks(text: &mut Vec<u8>, count: usize) -> Result<(), AllocError>
    ensures { OnOk result (text.new.items ≡ text.old.items ++ replicate count 32) }
{
    for n in 0..count {
        text.push(b' ')?;
    }
    Ok(())
}

/// The mark below a card.
fn push_mark(text: &mut Vec<u8>, column: usize) -> Result<(), AllocError>
    ensures { OnOk result (text.new.items ≡ text.old.items ++ mark_text (Some column)) }
{
    text.extend_from_slice(b"    ")?;
    push_blanks(text, column.min(COLUMNS))?;
    text.extend_from_slice(b"^\n")?;
    Ok(())
}

/// A card, with a column marked.
fn push_marked(text: &mut Vec<u8>, card: &[u8], column: Option<usize>) -> Result<(), AllocError>
    ensures { OnOk result (text.new.items ≡ text.old.items ++ marked_text (Some card.now) column) }
{
    push_card(text, card)?;
    match column {
        Some(column) => push_mark(text, column),
        None => Ok(()),
    }
}

/// The card, with the place marked where it is known.
fn push_spot(text: &mut Vec<u8>, lines: &[Card<'_>], spot: Spot) -> Result<(), AllocError>
    ensures { OnOk result (text.new.items ≡ text.old.items ++ spot_text lines.now spot) }
{
    match spot.card {
        Some(n) => match lines.get(n) {
            Some(line) => push_marked(text, line.as_slice(), spot.column),
            None => Ok(()),
        },
        None => Ok(()),
    }
}

/// The line of the session that a line of a procedure is, if it is one.
fn push_line_of_session(text: &mut Vec<u8>, line: Option<usize>) -> Result<(), AllocError>
    ensures { OnOk result (text.new.items ≡ text.old.items ++ of_session_text line) }
{
    match line {
        Some(line) => {
            text.extend_from_slice(b", line ")?;
            push_number(text, line)?;
            text.extend_from_slice(b" of the session")
        }
        None => Ok(()),
    }
}

/// The statement of a called procedure.
fn push_inside(text: &mut Vec<u8>, inside: &Inside) -> Result<(), AllocError>
    ensures { OnOk result (text.new.items ≡ text.old.items ++ inside_text (Some inside.now)) }
{
    text.extend_from_slice(b"    line ")?;
    push_number(text, inside.line)?;
    text.extend_from_slice(b" of the procedure ")?;
    text.extend_from_slice(inside.procedure.as_slice())?;
    push_line_of_session(text, inside.of_session)?;
    text.extend_from_slice(b":\n")?;
    push_card(text, inside.card.as_slice())
}

/// What is wrong, in words.
fn wrong_of(cause: Cause) -> &'static [u8] {
    let (letter, number) = number_of(cause);
    match row_of(letter, number) {
        Some(row) => row.wrong.as_bytes(),
        None => b"",
    }
}

/// What to do, in words.
fn to_do_of(cause: Cause) -> &'static [u8] {
    let (letter, number) = number_of(cause);
    match row_of(letter, number) {
        Some(row) => row.to_do.as_bytes(),
        None => b"",
    }
}

/// The statement of a called procedure, if a refusal is for one.
fn inside_of(alloc: Global, inside: &Option<Inside>) -> Result<Vec<u8>, AllocError>
    ensures { IfOk result (λ text. text.items ≡ inside_text inside.now) }
{
    let mut text = Vec::new(alloc);
    match inside {
        Some(inside) => push_inside(&mut text, inside)?,
        None => {}
    }
    Ok(text)
}

/// What to do, and a word that may have been meant.
fn advice_of(alloc: Global, report: &Report) -> Result<Vec<u8>, AllocError> {
    let mut text = Vec::new(alloc);
    text.extend_from_slice(b"    ")?;
    text.extend_from_slice(to_do_of(report.cause))?;
    if let Some(guess) = &report.guess {
        text.extend_from_slice(b"; did you mean ")?;
        text.extend_from_slice(guess.as_slice())?;
        text.push(b'?')?;
    }
    if !report.hint.as_slice().is_empty() {
        text.extend_from_slice(b"\n    ")?;
        text.extend_from_slice(report.hint.as_slice())?;
    }
    text.push(b'\n')?;
    Ok(text)
}

/// What is told of a refusal behind its line and its number: what is wrong, where, and what to do.
fn words_of(alloc: Global, lines: &[Card<'_>], report: &Report) -> Result<Vec<u8>, AllocError>
    ensures { IfOk result (λ text. TellsPlace lines.now report.now text.items) }
{
    let inside = inside_of(alloc, &report.inside)?;
    let advice = advice_of(alloc, report)?;
    let mut text = Vec::from_slice(alloc, wrong_of(report.cause))?;
    text.push(b'\n')?;
    push_spot(&mut text, lines, report.spot)?;
    text.extend_from_slice(inside.as_slice())?;
    text.extend_from_slice(advice.as_slice())?;
    Ok(text)
}

/// What is told of the refusals behind the first, and among them these warnings, each before the refusals of later cards.
fn later_of(
    alloc: Global,
    first_line: usize,
    lines: &[Card<'_>],
    later: &[Report],
    warned: &[Warned],
) -> Result<Vec<u8>, AllocError> {
    let mut text = Vec::new(alloc);
    let mut left = warned;
    for report in later {
        let (due, behind) = left.split_at(count_before(report.spot.card, left));
        push_warned(&mut text, first_line, due)?;
        left = behind;
        let line = line_of(first_line, report.spot.card)?;
        push_head(&mut text, line, report.cause)?;
        text.extend_from_slice(words_of(alloc, lines, report)?.as_slice())?;
    }
    push_warned(&mut text, first_line, left)?;
    Ok(text)
}

/// The words of the first refusal, and what is told of the others and of these warnings.
fn rest_of(
    alloc: Global,
    first_line: usize,
    lines: &[Card<'_>],
    first: &Report,
    later: &[Report],
    warned: &[Warned],
) -> Result<Vec<u8>, AllocError>
    ensures { IfOk result (λ text. TellsPlace lines.now first.now text.items) }
{
    let later = later_of(alloc, first_line, lines, later, warned)?;
    let mut text = words_of(alloc, lines, first)?;
    text.extend_from_slice(later.as_slice())?;
    Ok(text)
}

/// Writes what is told of a deck's first refusal, the others and these warnings.
fn push_refused(
    text: &mut Vec<u8>,
    first_line: usize,
    lines: &[Card<'_>],
    first: &Report,
    later: &[Report],
    warned: &[Warned],
) -> Result<(), AllocError>
    ensures { OnOk result (AddsRefusedText first_line lines.now first.now warned.now text.old.items text.new.items) }
{
    let (due, behind) = warned.split_at(count_before(first.spot.card, warned));
    let rest = rest_of(*text.allocator(), first_line, lines, first, later, behind)?;
    let line = line_of(first_line, first.spot.card)?;
    push_warned(text, first_line, due)?;
    push_head(text, line, first.cause)?;
    text.extend_from_slice(rest.as_slice())
}

/// Puts what is told of a deck that is refused behind a text, and among that what its cards warn of. The deck's first card stands on this line of the
/// session, which counts from 1. Of a deck that denotes a job nothing is put.
fn push_checked(
    text: &mut Vec<u8>,
    first_line: usize,
    lines: &[Card<'_>],
    checked: &Checked,
    warned: &[Warned],
) -> Result<(), AllocError>
    ensures { OnOk result (AddsToldText first_line lines.now checked.now warned.now text.old.items text.new.items) }
{
    match checked {
        Checked::Taken(_, _) => Ok(()),
        Checked::Refused { first, later } => {
            push_refused(text, first_line, lines, first, later.as_slice(), warned)
        }
    }
}

/// The same, with what the cards of the deck warn of, which is answered.
pub fn push_found(
    alloc: Global,
    text: &mut Vec<u8>,
    first_line: usize,
    lines: &[Card<'_>],
    checked: &Checked,
) -> Result<Vec<Warned>, AllocError>
    ensures told { OnOk result (AddsToldText first_line lines.now checked.now (warned_of checked.now lines.now) text.old.items text.new.items) }
    ensures warned { IfOk result (λ warned. warned.items ≡ warned_of checked.now lines.now) }
{
    let warned = warnings_of(alloc, lines, checked)?;
    push_checked(text, first_line, lines, checked, warned.as_slice())?;
    Ok(warned)
}
