//! An operand over its cards.
ghost use Rattle.std.specs.Prelude.{◌≡◌, ◌≤◌, length, IfOk};
ghost use Rattle.card_core.specs.Fields.{behind_operation, continued, operand_of, operand_behind, operation_of};
ghost use Rattle.card_core.specs.Deck.{Gives};

use crate::fault::CardFault;
use crate::field::{Fields, continuation_of, ends_with_comma, operand_text, resumes_outside};
use crate::images::CardImages;
use crate::read::ReadError;
use crate::statement::DataCard;
use plain::small::SmallText;
use std::alloc::Global;

/// An operand to its end.
#[derive(Drop)]
pub struct Operand {
    pub text: SmallText<22>,
    /// How many cards behind its first it takes.
    pub cards: usize,
    /// The card on which it ends.
    pub last: DataCard,
}

/// The operand whose text so far ended with a comma.
fn continued(before: Vec<u8>, cards: &CardImages<'_, '_>) -> Result<Operand, ReadError>
    ensures value { Gives (λ o. o) result (continued before.items cards.now) }
    ensures bound { IfOk result (λ o. o.cards ≤ length cards.now) }
{
    let mut text = before;
    let mut rest = cards.behind(0);
    while let Some((card, behind)) = rest.split_first() {
        if !card.may_continue() {
            return Err(ReadError::Fault(CardFault::NotContinued));
        }
        let card = card.filled();
        if resumes_outside(&card) {
            return Err(ReadError::Fault(CardFault::ResumedOutside));
        }
        let Some(piece) = operand_text(continuation_of(&card)) else {
            return Err(ReadError::Fault(CardFault::OpenApostrophe));
        };
        text.extend_from_slice(piece)?;
        if !ends_with_comma(piece) {
            return Ok(Operand {
                text: SmallText::new(text),
                cards: cards.len() - behind.len(),
                last: card,
            });
        }
        rest = behind;
    }
    Err(ReadError::Fault(CardFault::NotContinued))
}

fn operand_of(
    alloc: Global,
    fields: &Fields<'_>,
    card: &DataCard,
    cards: &CardImages<'_, '_>,
) -> Result<Operand, ReadError>
    requires operation { fields.now.operation.now ≡ operation_of card.now }
    requires behind { fields.now.behind.now ≡ behind_operation card.now }
    ensures value { Gives (λ o. o) result (operand_of card.now cards.now) }
    ensures bound { IfOk result (λ o. o.cards ≤ length cards.now) }
{
    let mut text: &[u8] = &[];
    if fields.operation != b"PEND".as_slice() {
        let Some(piece) = operand_text(fields.behind) else {
            return Err(ReadError::Fault(CardFault::OpenApostrophe));
        };
        if ends_with_comma(piece) {
            return continued(Vec::from_slice(alloc, piece)?, cards);
        }
        text = piece;
    }
    Ok(Operand {
        text: SmallText::copy_of(alloc, text)?,
        cards: 0,
        last: *card,
    })
}

/// The operand of the statement that begins on this card with these fields, with these cards behind it.
pub fn operand_behind(
    alloc: Global,
    fields: &Fields<'_>,
    card: &DataCard,
    cards: &CardImages<'_, '_>,
) -> Result<Operand, ReadError>
    requires operation { fields.now.operation.now ≡ operation_of card.now }
    requires behind { fields.now.behind.now ≡ behind_operation card.now }
    ensures value { Gives (λ o. o) result (operand_behind card.now cards.now) }
    ensures bound { IfOk result (λ o. o.cards ≤ length cards.now) }
{
    if fields.operation.is_empty() {
        return Err(ReadError::Fault(CardFault::NoOperation));
    }
    operand_of(alloc, fields, card, cards)
}
