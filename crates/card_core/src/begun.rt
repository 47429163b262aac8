//! A statement, and the cards that it takes.
ghost use Rattle.std.specs.Prelude.{◌≡◌, ◌≤◌, ◌<◌, ◌+◌, ◌^◌, ◌∷◌, length, IfOk};
ghost use Rattle.card_core.specs.Fields.{operand_behind};
ghost use Rattle.card_core.specs.Deck.{comment_cards, data_cards, with_data, with_operand, loose};
ghost use Rattle.card_core.specs.Reading.{Begins};
ghost use Rattle.card_core.specs.declared.data.Opens.TheVariants.{ToStatement};

use crate::card::is_marked;
use crate::data::{Opens, data_count, data_of, is_early, opened_by, used_by_data};
use crate::fault::CardFault;
use crate::field::{Fields, fields_of};
use crate::image::CardImage;
use crate::images::CardImages;
use crate::operand::operand_behind;
use crate::read::ReadError;
use crate::statement::{DataCard, Statement};
use plain::listed::Listed;
use plain::small::SmallText;
use std::alloc::{AllocError, Global};

/// A statement that begins on a card.
#[derive(Drop)]
pub struct Begun {
    pub statement: Statement,
    /// Whether an EXEC statement stands before what follows.
    pub called: bool,
    /// How many cards behind its first it takes.
    pub used: usize,
}

/// How many cards at the front continue the comment of a statement that ends on the last card: one at most.
fn comment_cards(last: &DataCard, cards: &CardImages<'_, '_>) -> usize
    ensures count { result ≡ comment_cards last.now cards.now }
    ensures bound { result ≤ length cards.now }
{
    match cards.split_first() {
        Some((card, _)) if is_marked(last) && card.may_continue() => 1,
        _ => 0,
    }
}

/// The statement of these fields with this operand, which takes so many cards before the data.
fn with_data(
    alloc: Global,
    called: bool,
    fields: &Fields<'_>,
    operand: SmallText<22>,
    used: usize,
    behind: &CardImages<'_, '_>,
) -> Result<Begun, ReadError>
    requires { used + length behind.now < 2 ^ 64 }
    ensures begins { Begins result (with_data called fields.now.name.now fields.now.operation.now operand used behind.now) }
    ensures bound { IfOk result (λ begun. begun.used ≤ used + length behind.now) }
{
    let operation = fields.operation;
    let opens = opened_by(operation, operand.as_slice());
    let found = data_of(alloc, opens, behind)?;
    if is_early(called, &found) {
        return Err(ReadError::Fault(CardFault::DataBeforeExec));
    }
    Ok(Begun {
        called: called || operation == b"EXEC".as_slice(),
        used: used + used_by_data(opens, behind),
        statement: Statement {
            name: SmallText::copy_of(alloc, fields.name)?,
            operation: SmallText::copy_of(alloc, operation)?,
            operand,
            cards: found,
        },
    })
}

/// The statement that begins on a card with `//`.
pub fn jcl_statement(
    alloc: Global,
    called: bool,
    card: &CardImage<'_>,
    cards: &CardImages<'_, '_>,
) -> Result<Begun, ReadError>
    ensures begins { Begins result (with_operand called card.now cards.now (operand_behind card.now cards.now)) }
    ensures bound { IfOk result (λ begun. begun.used ≤ length cards.now) }
{
    let card = card.filled();
    let fields = fields_of(&card);
    let operand = operand_behind(alloc, &fields, &card, cards)?;
    let used = operand.cards + comment_cards(&operand.last, &cards.behind(operand.cards));
    let behind = cards.behind(used);
    with_data(alloc, called, &fields, operand.text, used, &behind)
}

/// The data that begin with this card, which no statement opens.
fn loose_cards(
    alloc: Global,
    card: &CardImage<'_>,
    cards: &CardImages<'_, '_>,
) -> Result<Listed<DataCard>, AllocError>
    ensures { IfOk result (λ found. found ≡ card.now ∷ data_cards ToStatement cards.now) }
{
    let mut found = Vec::new(alloc);
    found.push(card.filled())?;
    cards.push_filled(data_count(Opens::ToStatement, cards), &mut found)?;
    Ok(Listed::new(found))
}

/// The statement of data that no statement opens.
pub fn loose(
    alloc: Global,
    called: bool,
    card: &CardImage<'_>,
    cards: &CardImages<'_, '_>,
) -> Result<Begun, ReadError>
    ensures begins { Begins result (loose called card.now cards.now) }
    ensures bound { IfOk result (λ begun. begun.used ≤ length cards.now) }
{
    if !called {
        return Err(ReadError::Fault(CardFault::DataBeforeExec));
    }
    Ok(Begun {
        statement: Statement {
            name: SmallText::copy_of(alloc, b"SYSIN")?,
            operation: SmallText::copy_of(alloc, b"DD")?,
            operand: SmallText::copy_of(alloc, b"*")?,
            cards: Some(loose_cards(alloc, card, cards)?),
        },
        called,
        used: used_by_data(Opens::ToStatement, cards),
    })
}
