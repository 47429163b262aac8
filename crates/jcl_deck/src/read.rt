//! Decks of statements.
ghost use Rattle.value_core.specs.Reads.{Gives};
ghost use Rattle.jcl_deck.specs.Decks.{deck_of};

use crate::deck::Deck;
use crate::place::Place;
use card_core::statement::Statement;
use std::alloc::Global;
use value_core::refusal::ReadError;

/// The deck that statements are, or its first refusal.
pub fn read_deck(alloc: Global, statements: Vec<Statement>) -> Result<Deck, ReadError>
    ensures { Gives result (deck_of statements.items) }
{
    let mut place = Place::start(alloc);
    for statement in statements {
        place.take(alloc, statement)?;
    }
    Ok(place.end()?)
}
