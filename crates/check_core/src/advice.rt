//! What is said beside a refusal of a deck.
use crate::guess::{is_keyword, nearest_keyword, nearest_value, procedure_at, word_at};
use crate::hint::{push_hint, push_sentence, seems_to_continue, value_of, wrong_word};
use crate::mended::{Mended, card_at};
use crate::report::{Inside, Spot};
use card_core::card::{Kind, card_of, kind_of};
use card_core::field::fields_of;
use card_core::statement::DataCard;
use card_warnings::keywords::is_keyword_of;
use jcl_plan::fault::{Cause, StatementFault};
use plain::text::Text;
use std::alloc::{AllocError, Global};

/// Whether the deck has a procedure that is not ended.
fn has_open_procedure(mended: &Mended) -> bool {
    let mut is_open = false;
    for n in 0..mended.lines.len() {
        if let Some(card) = card_at(mended.lines.as_slice(), n) {
            if kind_of(&card) == Kind::Jcl {
                let operation = fields_of(&card).operation;
                is_open = operation == b"PROC".as_slice()
                    || (is_open && operation != b"PEND".as_slice());
            }
        }
    }
    is_open
}

/// What is said of an operand that nothing continues, by the card behind it.
fn push_of_next(sentences: &mut Vec<u8>, mended: &Mended, next: usize) -> Result<(), AllocError> {
    let Some(card) = card_at(mended.lines.as_slice(), next) else {
        return Ok(());
    };
    match kind_of(&card) {
        Kind::Comment => push_sentence(sentences, "a comment card cannot be within a statement"),
        Kind::Jcl if seems_to_continue(&card) => {
            push_sentence(
                sentences,
                "the next card seems to continue it: put a blank in column 3",
            )
        }
        _ => Ok(()),
    }
}

/// What is said of the whole deck.
fn push_of_deck(
    sentences: &mut Vec<u8>,
    mended: &Mended,
    cause: Cause,
    spot: Spot,
    card: &DataCard,
) -> Result<(), AllocError> {
    let column = spot.column.unwrap_or(80);
    match cause {
        Cause::C(3) => {
            let own = spot.card.unwrap_or(mended.lines.len());
            push_of_next(sentences, mended, own.saturating_add(1))
        }
        Cause::P(StatementFault::NoStep) if has_open_procedure(mended) => push_sentence(
            sentences,
            "a procedure has no // PEND: the steps after its PROC statement are its own",
        ),
        Cause::P(StatementFault::NoSuchProcedure)
            if procedure_at(card, column) == b"IEFBR14".as_slice() => {
            push_sentence(sentences, "a program of the name is run by PGM=")
        }
        _ => Ok(()),
    }
}

/// The columns of a card where a part of its operand begins, or a word in parentheses.
fn begins_part(card: &DataCard, column: usize) -> bool {
    match card.get(column.saturating_sub(1)) {
        Some(before) => 0 < column && (*before == b' ' || *before == b','),
        None => false,
    }
}

/// Whether the part at a column of a card of a procedure is what it is refused for.
fn is_wrong_part(cause: Cause, operation: &[u8], card: &DataCard, column: usize) -> bool {
    let word = word_at(card, column);
    if word.is_empty() || !is_keyword(card, column, word) {
        return false;
    }
    match cause {
        Cause::P(StatementFault::UnknownKeyword) => !is_keyword_of(operation, word),
        Cause::P(StatementFault::BadValue) => match value_of(word) {
            Some(value) => {
                let (_, behind) = card.as_slice().split_at(
                    column.saturating_add(word.len()).saturating_add(1).min(80),
                );
                wrong_word(value, behind).is_some()
            }
            None => false,
        },
        _ => false,
    }
}

/// The column of the first part of a card of a procedure that is wrong.
fn wrong_column(cause: Cause, card: &DataCard) -> Option<usize> {
    let operation = fields_of(card).operation;
    (0..80).find(|column| {
        begins_part(card, *column) && is_wrong_part(cause, operation, card, *column)
    })
}

/// A word that may have been meant on a card of a procedure.
pub(crate) fn guess_inside(
    alloc: Global,
    cause: Cause,
    inside: &Inside,
) -> Result<Option<Text>, AllocError> {
    let Ok(card) = card_of(inside.card.as_slice()) else {
        return Ok(None);
    };
    let operation = fields_of(&card).operation;
    match (cause, wrong_column(cause, &card)) {
        (Cause::P(StatementFault::UnknownKeyword), Some(column)) => {
            nearest_keyword(alloc, operation, &card, column)
        }
        (Cause::P(StatementFault::BadValue), Some(column)) => {
            nearest_value(alloc, operation, &card, column)
        }
        _ => Ok(None),
    }
}

/// What is said of a card of a procedure.
fn push_inside(sentences: &mut Vec<u8>, cause: Cause, inside: &Inside) -> Result<(), AllocError> {
    let Ok(card) = card_of(inside.card.as_slice()) else {
        return Ok(());
    };
    push_hint(
        sentences,
        cause,
        &card,
        wrong_column(cause, &card).unwrap_or(80),
    )
}

/// What else is said of a refusal there: sentences, a line each.
pub(crate) fn hint_at(
    alloc: Global,
    mended: &Mended,
    cause: Cause,
    spot: Spot,
    inside: &Option<Inside>,
) -> Result<Text, AllocError> {
    let mut sentences = Vec::new(alloc);
    let card = match spot.card {
        Some(n) => card_at(mended.lines.as_slice(), n),
        None => None,
    };
    let column = spot.column.unwrap_or(80);
    match (inside, card) {
        (Some(inside), _) => push_inside(&mut sentences, cause, inside)?,
        (None, Some(card)) => {
            push_of_deck(&mut sentences, mended, cause, spot, &card)?;
            push_hint(&mut sentences, cause, &card, column)?;
        }
        (None, None) => {}
    }
    Ok(Text::new(sentences))
}
