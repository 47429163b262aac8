//! The fields of a card.
ghost use Rattle.std.specs.Prelude.{◌≡◌, ◌≤◌, ◌+◌, drop, length, not, false};
ghost use Rattle.std.specs.List.{list_any};
ghost use Rattle.std.specs.Option.{option_copied};
ghost use Rattle.card_core.specs.Cards.{is_blank, columns};
ghost use Rattle.card_core.specs.Fields.{begins_quoted, front, behind, is_not_blank, is_unquoted, without_blanks, operand_text, quoted_after, ends_with_comma, resumes_outside, name_of, operation_of, behind_operation};

use crate::card::{columns, is_blank};
use crate::statement::DataCard;

const APOSTROPHE: u8 = b'\'';

/// How many blanks the text begins with.
fn blanks(text: &[u8]) -> usize
    ensures count { result ≡ length (front is_blank text.now) }
    ensures bound { result ≤ length text.now }
{
    text.iter().take_while(|c| is_blank(**c)).count()
}

/// How many characters the text has before its first blank.
fn word_len(text: &[u8]) -> usize
    ensures count { result ≡ length (front is_not_blank text.now) }
    ensures bound { result ≤ length text.now }
{
    text.iter().take_while(|c| !is_blank(**c)).count()
}

fn without_blanks(text: &[u8]) -> &[u8]
    ensures { result.now ≡ without_blanks text.now }
{
    let (_, behind) = text.split_at(blanks(text));
    behind
}

/// The characters before the first blank, and what is behind them.
fn word_and_behind(text: &[u8]) -> (&[u8], &[u8])
    ensures word { result.0.now ≡ front is_not_blank text.now }
    ensures behind { result.1.now ≡ behind is_not_blank text.now }
{
    text.split_at(word_len(text))
}

/// The fields of a statement's first card.
#[derive(Clone, Copy)]
pub struct Fields<'a> {
    pub name: &'a [u8],
    pub operation: &'a [u8],
    /// What stands behind the operation: the operand, and comment.
    pub behind: &'a [u8],
}

/// The fields of a card, in one walk over its columns.
pub fn fields_of(card: &DataCard) -> Fields<'_>
    ensures name { result.name.now ≡ name_of card.now }
    ensures operation { result.operation.now ≡ operation_of card.now }
    ensures behind { result.behind.now ≡ behind_operation card.now }
{
    let (name, behind) = word_and_behind(columns(card, 3, 71));
    let (operation, rest) = word_and_behind(without_blanks(behind));
    Fields {
        name,
        operation,
        behind: without_blanks(rest),
    }
}

/// The operand's text on one card, character by character.
fn text_by_characters(text: &[u8]) -> Option<&[u8]>
    ensures { option_copied result ≡ operand_text false text.now }
{
    let mut quoted = false;
    for (at, c) in text.iter().enumerate() {
        if is_blank(*c) && !quoted {
            let (operand, _) = text.split_at(at);
            return Some(operand);
        }
        quoted = quoted_after(quoted, *c);
    }
    if quoted { None } else { Some(text) }
}

fn is_unquoted(c: u8) -> bool
    ensures { result ≡ is_unquoted c }
{
    !is_blank(c) && c != APOSTROPHE
}

/// Whether a blank or an apostrophe is in the text.
fn has_stop(text: &[u8]) -> bool
    ensures { result ≡ list_any (λ c. not (is_unquoted c)) text.now }
{
    let mut found = false;
    for c in text.iter() {
        found |= !is_unquoted(*c);
    }
    found
}

/// How many characters at the front stand in whole eights without a blank or an apostrophe.
fn in_eights(text: &[u8]) -> usize
    ensures count { length (front is_unquoted text.now) ≡ result + length (front is_unquoted (drop result text.now)) }
    ensures bound { result ≤ length text.now }
{
    let mut count = 0;
    while text.len() - count >= 8 && !has_stop(&text[count..count + 8]) {
        count += 8;
    }
    count
}

/// How many characters the text has before its first blank or apostrophe, one by one.
fn one_by_one(text: &[u8]) -> usize
    ensures count { result ≡ length (front is_unquoted text.now) }
    ensures bound { result ≤ length text.now }
{
    text.iter().take_while(|c| is_unquoted(**c)).count()
}

/// How many characters the text has before its first blank or apostrophe.
fn unquoted_len(text: &[u8]) -> usize
    ensures count { result ≡ length (front is_unquoted text.now) }
    ensures bound { result ≤ length text.now }
{
    let count = in_eights(text);
    let (_, behind) = text.split_at(count);
    count + one_by_one(behind)
}

fn begins_quoted(text: &[u8]) -> bool
    ensures { result ≡ begins_quoted text.now }
{
    match text {
        [first, ..] => *first == APOSTROPHE,
        [] => false,
    }
}

/// The operand's text on one card: to a blank outside apostrophes, or to the end. With `None` apostrophes are open at the end. Most have none.
pub fn operand_text(text: &[u8]) -> Option<&[u8]>
    ensures { option_copied result ≡ operand_text false text.now }
{
    let (operand, behind) = text.split_at(unquoted_len(text));
    if begins_quoted(behind) {
        text_by_characters(text)
    } else {
        Some(operand)
    }
}

fn quoted_after(quoted: bool, c: u8) -> bool
    ensures { result ≡ quoted_after quoted c }
{
    if c == APOSTROPHE { !quoted } else { quoted }
}

pub fn ends_with_comma(text: &[u8]) -> bool
    ensures { result ≡ ends_with_comma text.now }
{
    match text {
        [.., last] => *last == b',',
        [] => false,
    }
}

/// Whether a continued operand resumes right of column 16.
pub fn resumes_outside(card: &DataCard) -> bool
    ensures { result ≡ resumes_outside card.now }
{
    12 < blanks(columns(card, 4, 71))
}

/// What stands in columns 4 to 71, without the blanks before it.
pub fn continuation_of(card: &DataCard) -> &[u8]
    ensures { result.now ≡ without_blanks (columns 4 71 card.now) }
{
    without_blanks(columns(card, 4, 71))
}
