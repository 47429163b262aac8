//! Laws of decks and of the steps that they give. They have no code: a law is a function that does nothing, and its contract is the law.
#![tactic(auto)]

ghost use Rattle.deck_laws.specs.DeckLaws.{DataAreCards, DecksAreSound, StepsAreSound};
ghost use Rattle.deck_laws.specs.Examples.{Example};

/// The data behind a statement are cards.
pub fn data_are_cards()
    ensures { DataAreCards }
{}

/// What is read of the statements of a deck is in its range: the JOB, the steps, of which there are one or more, and their DDs.
pub fn decks_are_sound()
    ensures { DecksAreSound }
{}

/// So is what the calls of such a deck give: a step or more, with what symbols and overrides make of the DDs of procedures.
pub fn steps_are_sound()
    ensures { StepsAreSound }
{}

/// There is such a deck: with data, and a call of a procedure with a symbol, a condition and DDs that override.
pub fn example()
    ensures { Example }
{}
