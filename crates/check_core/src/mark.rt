//! The place on a card where a statement is refused.
ghost use Rattle.std.specs.Prelude.{IfOk};
ghost use Rattle.deck_places.specs.Cards.{walk_of};
ghost use Rattle.deck_places.specs.Spots.{IsWithin};
ghost use Rattle.check_core.specs.Spots.{IfRefusedAt, IsAtFirst, IsCardShown, IsFirstOrWithin, IsSpotOf};

use crate::mended::{Mended, Span, card_at};
use crate::report::Spot;
use card_core::card::{Kind, kind_of};
use card_core::field::fields_of;
use card_core::statement::DataCard;
use deck_places::judge::At;
use deck_places::laws::each_place_has_a_statement;
use deck_places::marks::statement_mark;
use deck_places::walk::walk_lines;
use jcl_plan::fault::{Cause, StatementFault};
use std::alloc::{AllocError, Global};

/// The first column, from 0, behind the fields of a card that are read.
const FIELD_END: usize = 71;

/// The first column of a card behind its operation, or none where it has no operand.
fn operand_column(card: &DataCard) -> Option<usize> {
    let behind = fields_of(card).behind;
    if behind.is_empty() {
        None
    } else {
        Some(FIELD_END.saturating_sub(behind.len()))
    }
}

/// The operand of a statement, on its first card.
fn operand_spot(mended: &Mended, span: Span) -> Spot
    ensures { IsFirstOrWithin span result.card }
{
    let column = match card_at(mended.lines.as_slice(), span.from) {
        Some(card) => operand_column(&card),
        None => None,
    };
    Spot {
        card: Some(span.from),
        column,
    }
}

/// The word in a statement that a refusal of its plan is about.
fn word_of(cause: Cause) -> &'static [u8] {
    match cause {
        Cause::P(StatementFault::ReferenceToNothing | StatementFault::ForwardReference) => b"*.",
        Cause::P(StatementFault::UnknownUnit) => b"UNIT=",
        Cause::P(StatementFault::TestOfNoEarlierStep) => b"COND=",
        Cause::P(StatementFault::TooManyDdNames) => b"DDNAME=",
        _ => b"",
    }
}

/// Where a word begins in a text.
fn place_of(text: &[u8], word: &[u8]) -> Option<usize> {
    if word.is_empty() {
        return None;
    }
    text.windows(word.len()).position(|piece| piece == word)
}

/// The first place of a word on the cards of a statement, or its operand.
fn word_spot(mended: &Mended, span: Span, word: &[u8]) -> Spot
    ensures { IsFirstOrWithin span result.card }
{
    for n in span.from..span.to {
        if let Some(card) = card_at(mended.lines.as_slice(), n) {
            if let Some(column) = place_of(card.as_slice(), word) {
                return Spot {
                    card: Some(n),
                    column: Some(column),
                };
            }
        }
    }
    operand_spot(mended, span)
}

/// Of the cards on which statements begin the last that begins a procedure, or the first.
fn last_proc(mended: &Mended, begun: &[usize]) -> Option<usize>
    ensures { IsAtFirst begun.now result }
{
    let mut last = begun.first().copied();
    for n in begun {
        if let Some(card) = card_at(mended.lines.as_slice(), *n) {
            if kind_of(&card) == Kind::Jcl && fields_of(&card).operation == b"PROC".as_slice() {
                last = Some(*n);
            }
        }
    }
    last
}

/// The card that is shown for a refusal at the deck's end.
fn end_card(mended: &Mended, begun: &[usize], cause: Cause) -> Option<usize>
    ensures { IsAtFirst begun.now result }
{
    match cause {
        Cause::P(StatementFault::MissingPend) => last_proc(mended, begun),
        _ => begun.first().copied(),
    }
}

/// The place of a refusal at the deck's end.
fn end_spot(alloc: Global, mended: &Mended, cause: Cause) -> Result<Spot, AllocError>
    ensures { IfOk result (λ s. IsAtFirst (walk_of mended.now.lines.items).begun s.card) }
{
    let lent = mended.lent(alloc)?;
    let walk = walk_lines(alloc, lent.as_slice())?;
    let card = end_card(mended, walk.begun.as_slice(), cause);
    Ok(Spot { card, column: None })
}

/// The mark of a statement that is refused.
fn statement_spot(
    alloc: Global,
    mended: &Mended,
    k: usize,
    cause: Cause,
) -> Result<Spot, AllocError>
    ensures { IfRefusedAt mended.now.lines.items cause (At.Statement k)
        (IfOk result (IsSpotOf mended.now.lines.items cause (At.Statement k))) }
{
    let lent = mended.lent(alloc)?;
    let mark = statement_mark(alloc, lent.as_slice(), k, cause)?;
    Ok(Spot {
        card: Some(mark.card),
        column: mark.column,
    })
}

/// The card of another place, and what is marked of it.
fn card_spot(alloc: Global, mended: &Mended, cause: Cause, at: At) -> Result<Spot, AllocError>
    ensures { IsWithin (walk_of mended.now.lines.items).begun at → IfOk result (λ s. IsCardShown (walk_of mended.now.lines.items).begun at s.card) }
{
    let Some(span) = mended.span_at(alloc, at)? else {
        return end_spot(alloc, mended, cause);
    };
    match at {
        At::Card(n) => Ok(Spot {
            card: Some(n),
            column: None,
        }),
        At::Statement(_) | At::Call(_) | At::Planned(_, _) => {
            Ok(word_spot(mended, span, word_of(cause)))
        }
        At::End => end_spot(alloc, mended, cause),
    }
}

/// The place that is marked.
pub(crate) fn spot_of(
    alloc: Global,
    mended: &Mended,
    cause: Cause,
    at: At,
) -> Result<Spot, AllocError>
    ensures { IfRefusedAt mended.now.lines.items cause at (IfOk result (IsSpotOf mended.now.lines.items cause at)) }
{
    each_place_has_a_statement();
    match at {
        At::Statement(k) => statement_spot(alloc, mended, k, cause),
        _ => card_spot(alloc, mended, cause, at),
    }
}
