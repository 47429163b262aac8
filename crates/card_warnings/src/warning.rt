//! What a card of a deck warns of.
ghost use Rattle.std.specs.Prelude.{◌≡◌, ◌≤◌, drop, length, take, take_while};
ghost use Rattle.card_core.specs.Cards.{is_blank};
ghost use Rattle.card_core.specs.Fields.{without_blanks};
ghost use Rattle.jname_core.specs.Characters.{is_name_character};
ghost use Rattle.card_warnings.specs.Warnings.{begins_keyword, has_keyword_in_comment, has_one_slash, is_cut, is_job_library, of_kind, of_other};
ghost use Rattle.card_warnings.specs.Warnings.{of_statement, warning_of, words_of};

use crate::keywords::is_keyword_of;
use card_core::card::{Kind, card_of, kind_of};
use card_core::field::{fields_of, operand_text};
use card_core::statement::DataCard;
use jname_core::name8::{is_first, is_name_character};

/// The first column, from 0, that is not read, and the last before it.
const LAST_READ: usize = 70;

/// What a card warns of.
#[derive(Clone, Copy, PartialEq, Eq)]
pub enum Warning {
    /// A `./` line.
    Swallowed,
    /// Text stands on both sides of the end of column 71.
    Cut,
    /// A comment begins as a keyword of the statement does.
    Comment,
    /// A JOBLIB.
    JobLibrary,
    /// One slash, and a name behind it.
    OneSlash,
}

/// What is said of it.
pub fn words_of(warning: Warning) -> &'static [u8]
    ensures { result.now ≡ words_of warning }
{
    match warning {
        Warning::Swallowed => b"a ./ line is a card of this deck: a ./ END is missing before it",
        Warning::Cut => b"the text is cut after column 71",
        Warning::Comment =>
            b"a blank ends the operand: what looks like a keyword after it is a comment",
        Warning::JobLibrary => b"JOBLIB is dropped: programs are those of ./ PROGRAM",
        Warning::OneSlash => b"with one slash it is a card of data; a statement begins with two",
    }
}

/// Whether text stands on both sides of the end of column 71.
pub fn is_cut(card: &DataCard) -> bool
    ensures { result ≡ is_cut card.now }
{
    card[LAST_READ] != b' ' && card[LAST_READ + 1] != b' '
}

/// How many blanks a text begins with.
fn blanks_of(text: &[u8]) -> usize
    ensures count { result ≡ length (take_while is_blank text.now) }
    ensures bound { result ≤ length text.now }
{
    text.iter().take_while(|c| **c == b' ').count()
}

fn without_blanks(text: &[u8]) -> &[u8]
    ensures { result.now ≡ without_blanks text.now }
{
    let (_, rest) = text.split_at(blanks_of(text));
    rest
}

/// How many characters of a name a text begins with.
fn name_len(text: &[u8]) -> usize
    ensures count { result ≡ length (take_while is_name_character text.now) }
    ensures bound { result ≤ length text.now }
{
    text.iter().take_while(|c| is_name_character(**c)).count()
}

/// Whether a comment begins as a keyword of the operation does.
fn begins_keyword(operation: &[u8], comment: &[u8]) -> bool
    ensures { result ≡ begins_keyword operation.now comment.now }
{
    let (word, rest) = comment.split_at(name_len(comment));
    rest.starts_with(b"=") && is_keyword_of(operation, word)
}

/// What stands behind so many characters.
fn behind(text: &[u8], count: usize) -> &[u8]
    ensures { result.now ≡ drop count text.now }
{
    text.get(count..).unwrap_or_default()
}

/// Whether the comment of a card begins as a keyword of the statement does.
fn has_keyword_in_comment(card: &DataCard) -> bool
    ensures { result ≡ has_keyword_in_comment card.now }
{
    let fields = fields_of(card);
    match operand_text(fields.behind) {
        None => false,
        Some(operand) => {
            let comment = without_blanks(behind(fields.behind, operand.len()));
            begins_keyword(fields.operation, comment)
        }
    }
}

fn is_job_library(card: &DataCard) -> bool
    ensures { result ≡ is_job_library card.now }
{
    let fields = fields_of(card);
    fields.name == b"JOBLIB".as_slice() && fields.operation == b"DD".as_slice()
}

/// Whether a card begins with one slash, and a name behind it.
fn has_one_slash(card: &DataCard) -> bool
    ensures { result ≡ has_one_slash card.now }
{
    card[0] == b'/' && is_first(card[1])
}

fn of_statement(card: &DataCard) -> Option<Warning>
    ensures { result ≡ of_statement card.now }
{
    if is_cut(card) {
        Some(Warning::Cut)
    } else if has_keyword_in_comment(card) {
        Some(Warning::Comment)
    } else if is_job_library(card) {
        Some(Warning::JobLibrary)
    } else {
        None
    }
}

fn of_other(card: &DataCard) -> Option<Warning>
    ensures { result ≡ of_other card.now }
{
    if has_one_slash(card) {
        Some(Warning::OneSlash)
    } else {
        None
    }
}

fn of_kind(kind: Kind, card: &DataCard) -> Option<Warning>
    ensures { result ≡ of_kind kind card.now }
{
    match kind {
        Kind::Jcl => of_statement(card),
        Kind::Comment | Kind::Delimiter | Kind::Null | Kind::Data => of_other(card),
    }
}

/// What a line of a deck warns of, if of anything.
pub fn warning_of(line: &[u8]) -> Option<Warning>
    ensures { result ≡ warning_of line.now }
{
    if line.starts_with(b"./ ") {
        return Some(Warning::Swallowed);
    }
    match card_of(line) {
        Ok(card) => of_kind(kind_of(&card), &card),
        Err(_) => None,
    }
}
