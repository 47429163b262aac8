//! Statements from cards.
ghost use Rattle.std.specs.Prelude.{◌≡◌, ◌≤◌, ◌∷◌, ◌++◌, [], length, IfOk, OnOk, false};
ghost use Rattle.card_core.specs.Deck.{Gives, statements_behind, statements_of};
ghost use Rattle.card_core.specs.Reading.{Passes};

use crate::begun::{Begun, jcl_statement, loose};
use crate::card::Kind;
use crate::fault::CardFault;
use crate::image::CardImage;
use crate::images::CardImages;
use crate::statement::{Card, Statement};
use std::alloc::{AllocError, Global};

/// Why no statements were read.
#[derive(Clone, Copy, PartialEq, Eq)]
pub enum ReadError {
    /// The first fault: of lines first, over all cards, then in the order of the deck.
    Fault(CardFault),
    Memory,
}

impl From<AllocError> for ReadError {
    ghost use Rattle.std.specs.Prelude.{◌≡◌};
    ghost use Rattle.card_core.specs.declared.read.ReadError.TheVariants.{Memory};

    ghost from_gives = { λ _ e. e ≡ Memory };

    fn from(_error: AllocError) -> ReadError {
        ReadError::Memory
    }
}

/// Where the reading goes on behind a card and what it took.
#[derive(Clone, Copy)]
struct Place {
    /// Whether an EXEC statement stands before it.
    called: bool,
    /// How many cards behind that card were taken.
    used: usize,
}

fn put<T: Drop>(out: &mut Vec<T>, item: T) -> Result<(), AllocError>
    ensures { OnOk result (out.new.items ≡ out.old.items ++ item ∷ []) }
{
    out.push(item)?;
    Ok(())
}

/// Puts a statement behind the others.
fn put_begun(out: &mut Vec<Statement>, begun: Begun) -> Result<Place, AllocError>
    ensures put { OnOk result (out.new.items ≡ out.old.items ++ begun.statement ∷ []) }
    ensures place { IfOk result (λ place. place ≡ record { called = begun.called; used = begun.used }) }
{
    put(out, begun.statement)?;
    Ok(Place {
        called: begun.called,
        used: begun.used,
    })
}

/// Puts what begins with a card behind the statements before it. The null statement is taken with all cards behind it.
fn push_statement(
    alloc: Global,
    out: &mut Vec<Statement>,
    called: bool,
    card: &CardImage<'_>,
    cards: &CardImages<'_, '_>,
) -> Result<Place, ReadError>
    ensures passes { Passes result out.old.items out.new.items called card.now cards.now }
    ensures bound { IfOk result (λ place. place.used ≤ length cards.now) }
{
    let begun = match card.kind() {
        Kind::Comment | Kind::Delimiter => return Ok(Place { called, used: 0 }),
        Kind::Null => {
            return Ok(Place {
                called,
                used: cards.len(),
            });
        }
        Kind::Jcl => jcl_statement(alloc, called, card, cards)?,
        Kind::Data => loose(alloc, called, card, cards)?,
    };
    Ok(put_begun(out, begun)?)
}

fn statements(alloc: Global, cards: CardImages<'_, '_>) -> Result<Vec<Statement>, ReadError>
    ensures { Gives (λ v. v.items) result (statements_behind false 0 cards.entry) }
{
    let mut out = Vec::new(alloc);
    let mut called = false;
    let mut rest = cards;
    while let Some((card, behind)) = rest.split_first() {
        let place = push_statement(alloc, &mut out, called, &card, &behind)?;
        called = place.called;
        rest = behind.behind(place.used);
    }
    Ok(out)
}

/// The statements of a deck, to the null statement or the last card.
pub fn read_statements(alloc: Global, cards: &[Card<'_>]) -> Result<Vec<Statement>, ReadError>
    ensures { Gives (λ v. v.items) result (statements_of cards.now) }
{
    match CardImages::of_lines(cards) {
        Ok(cards) => statements(alloc, cards),
        Err(fault) => Err(ReadError::Fault(fault)),
    }
}
