//! Data cards.
ghost use Rattle.std.specs.Prelude.{◌≡◌, ◌≤◌, ◌+◌, length, drop, IfOk};
ghost use Rattle.card_core.specs.Fields.{opens};
ghost use Rattle.card_core.specs.Deck.{ends_data, data_cards, delimiters_at, used_by_data, data_of, is_early};

use crate::image::CardImage;
use crate::images::CardImages;
use crate::statement::DataCard;
use plain::listed::Listed;
use std::alloc::{AllocError, Global};

/// Which data stand behind a statement.
#[derive(Clone, Copy, PartialEq, Eq)]
pub enum Opens {
    Nothing,
    /// `DD *`: data to `/*` or `//`.
    ToStatement,
    /// `DD DATA`: data to `/*` alone.
    ToDelimiter,
}

/// Which data a statement with this operation and operand opens.
pub fn opened_by(operation: &[u8], operand: &[u8]) -> Opens
    ensures { result ≡ opens operation.now operand.now }
{
    if operation != b"DD".as_slice() {
        Opens::Nothing
    } else if operand == b"*".as_slice() || operand.starts_with(b"*,") {
        Opens::ToStatement
    } else if operand == b"DATA".as_slice() || operand.starts_with(b"DATA,") {
        Opens::ToDelimiter
    } else {
        Opens::Nothing
    }
}

fn ends_data(opens: Opens, card: &CardImage<'_>) -> bool
    ensures { result ≡ ends_data opens card.now }
{
    match opens {
        Opens::Nothing => true,
        Opens::ToStatement => card.is_delimiter() || card.is_jcl(),
        Opens::ToDelimiter => card.is_delimiter(),
    }
}

/// How many of these cards are data.
pub fn data_count(opens: Opens, cards: &CardImages<'_, '_>) -> usize
    ensures count { result ≡ length (data_cards opens cards.now) }
    ensures bound { result ≤ length cards.now }
{
    let mut rest = cards.behind(0);
    while let Some((card, behind)) = rest.split_first() {
        if ends_data(opens, &card) {
            break;
        }
        rest = behind;
    }
    cards.len() - rest.len()
}

/// How many delimiters stand at the front, which end data: one at most.
fn delimiters_at(cards: &CardImages<'_, '_>) -> usize
    ensures count { result ≡ delimiters_at cards.now }
    ensures bound { result ≤ length cards.now }
{
    match cards.split_first() {
        Some((card, _)) if card.is_delimiter() => 1,
        _ => 0,
    }
}

/// How many of these cards the data take, with the delimiter that ends them.
pub fn used_by_data(opens: Opens, cards: &CardImages<'_, '_>) -> usize
    ensures count { result ≡ used_by_data opens cards.now }
    ensures bound { result ≤ length cards.now }
{
    match opens {
        Opens::Nothing => 0,
        _ => {
            let count = data_count(opens, cards);
            count + delimiters_at(&cards.behind(count))
        }
    }
}

/// The data among these cards.
pub fn data_of(
    alloc: Global,
    opens: Opens,
    cards: &CardImages<'_, '_>,
) -> Result<Option<Listed<DataCard>>, AllocError>
    ensures { IfOk result (λ found. found ≡ data_of opens cards.now) }
{
    match opens {
        Opens::Nothing => Ok(None),
        _ => {
            let mut found = Vec::new(alloc);
            cards.push_filled(data_count(opens, cards), &mut found)?;
            Ok(Some(Listed::new(found)))
        }
    }
}

/// Whether data are before the first EXEC statement.
pub fn is_early(called: bool, found: &Option<Listed<DataCard>>) -> bool
    ensures { result ≡ is_early called found.now }
{
    match found {
        None => false,
        Some(cards) => !called && cards.len() > 0,
    }
}
