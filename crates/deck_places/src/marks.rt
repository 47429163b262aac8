//! Where the refusal of a statement is marked.
ghost use Rattle.std.specs.Prelude.{◌≡◌, ◌+◌, ◌-◌, IfOk, List, None, Ok, Some, drop, length};
ghost use Rattle.std.specs.Option.{option_copied};
ghost use Rattle.card_core.specs.declared.statement.Statement.{Statement};
ghost use Rattle.jcl_deck.specs.Places.{denoted};
ghost use Rattle.jcl_job.specs.Jobs.{statements_in};
ghost use Rattle.deck_places.specs.Parts.{BeginAsMany, IsMark, IsMarkAmong, IsMarkAt, is_behind, left_behind, place_on};
ghost use Rattle.deck_places.specs.Statements.{IsRefusedAt};

use crate::judge::{Read, read_all};
use crate::lines::{Lined, cards_of};
use crate::parts::{parts_of, refused_part, start_of};
use crate::walk::walk_cards;
use card_core::field::{continuation_of, ends_with_comma, fields_of, operand_text};
use card_core::images::CardImages;
use card_core::read::{ReadError as CardError, read_statements};
use card_core::statement::{Card, DataCard, Statement};
use jcl_deck::place::Place;
use jcl_plan::fault::Cause;
use std::alloc::{AllocError, Global};

/// The first column, from 0, behind those that are read of a card with `//`.
const END: usize = 71;

/// Where a refusal is marked: a card, and a column of it, or none. Both count from 0.
#[derive(Clone, Copy, PartialEq, Eq)]
pub struct Mark {
    pub card: usize,
    pub column: Option<usize>,
}

/// The first card of a statement.
fn first_of(first: usize) -> Mark
    ensures { result ≡ record { card = first; column = None } }
{
    Mark {
        card: first,
        column: None,
    }
}

/// A place on a card, in the operand that begins with this field.
fn mark_on(card: usize, field: &[u8], place: usize) -> Result<Mark, AllocError>
    ensures { IfOk result (λ mark. mark ≡ record { card = card; column = Some (71 - length field.now + place) }) }
{
    match END.saturating_sub(field.len()).checked_add(place) {
        Some(column) => Ok(Mark {
            card,
            column: Some(column),
        }),
        None => Err(AllocError),
    }
}

/// Whether a place in an operand is behind its text on a card, which goes on.
fn is_behind(place: usize, text: Option<&[u8]>) -> bool
    ensures { result ≡ is_behind place (option_copied text.entry) }
{
    match text {
        None => false,
        Some(text) => ends_with_comma(text) && text.len() <= place,
    }
}

/// The place in what is behind that text.
fn left_behind(place: usize, text: Option<&[u8]>) -> usize
    ensures { result ≡ left_behind place (option_copied text.entry) }
{
    match text {
        None => place,
        Some(text) => place.saturating_sub(text.len()),
    }
}

/// A place in the operand of the statement that begins on a card.
fn place_on(cards: &[DataCard], first: usize, place: usize) -> Result<Mark, AllocError>
    ensures { IfOk result (λ mark. mark ≡ place_on first place (drop first cards.now)) }
{
    let Some(card) = cards.get(first) else {
        return Ok(first_of(first));
    };
    let last = cards.len() - 1;
    let mut place = place;
    let mut field = fields_of(card).behind;
    for at in first..last {
        let text = operand_text(field);
        if !is_behind(place, text) {
            return mark_on(at, field, place);
        }
        place = left_behind(place, text);
        field = continuation_of(&cards[at + 1]);
    }
    mark_on(last, field, place)
}

/// The mark of a statement that is refused behind these.
fn mark_behind(
    alloc: Global,
    cards: &CardImages<'_, '_>,
    first: usize,
    place: Place,
    statement: &Statement,
    cause: Cause,
) -> Result<Mark, AllocError>
    ensures { IfOk result (IsMarkAt (denoted place) statement.now cause first (drop first cards.now)) }
{
    let parts = parts_of(alloc, statement.operand.as_slice())?;
    match refused_part(alloc, place, statement, parts.as_slice(), cause)? {
        None => Ok(first_of(first)),
        Some(n) => {
            let mut filled = Vec::new(alloc);
            cards.push_filled(cards.len(), &mut filled)?;
            place_on(filled.as_slice(), first, start_of(parts.as_slice(), n)?)
        }
    }
}

/// The mark of these statements of these cards.
fn mark_among(
    alloc: Global,
    cards: &CardImages<'_, '_>,
    statements: &[Statement],
    k: usize,
    cause: Cause,
) -> Result<Mark, AllocError>
    ensures { IsRefusedAt statements.now k cause → BeginAsMany cards.now statements.now →
        IfOk result (IsMarkAmong cards.now statements.now k cause) }
{
    let begun = walk_cards(alloc, cards)?.begun;
    let Some(first) = begun.get(k) else {
        return Ok(first_of(0));
    };
    let Some(statement) = statements.get(k) else {
        return Ok(first_of(0));
    };
    let (before, _) = statements.split_at(k);
    match read_all(alloc, before)? {
        Read::Taken(place) => mark_behind(alloc, cards, *first, place, statement, cause),
        Read::Refused(_, _) => Ok(first_of(*first)),
    }
}

/// Where the refusal of a deck's k-th statement, from 0, is marked.
pub fn statement_mark(
    alloc: Global,
    lines: &[Card<'_>],
    k: usize,
    cause: Cause,
) -> Result<Mark, AllocError>
    ensures { (statements : List Statement) → statements_in lines.now ≡ Ok statements → IsRefusedAt statements k cause →
        IfOk result (IsMark lines.now k cause) }
{
    let statements = match read_statements(alloc, lines) {
        Ok(statements) => statements,
        Err(CardError::Fault(_)) => return Ok(first_of(0)),
        Err(CardError::Memory) => return Err(AllocError),
    };
    match cards_of(lines) {
        Lined::Cards(cards) => mark_among(alloc, &cards, statements.as_slice(), k, cause),
        Lined::Bad(_) => Ok(first_of(0)),
    }
}
