//! What holds of places, whatever the deck. A law has no code: its contract is the law.
ghost use Rattle.deck_places.specs.Called.{CallsAreRefused, ProceduresStand, StatementsAreOnLines};
ghost use Rattle.deck_places.specs.Spots.{PlacesHaveStatements};

/// Where a deck is refused at a statement, one begins.
pub fn each_place_has_a_statement()
    ensures { PlacesHaveStatements }
{}

/// The procedure that a call finds in a deck is what stands behind the first PROC statement of its name.
pub fn each_procedure_stands_in_its_deck()
    ensures { ProceduresStand }
{}

/// The card on which the statement of a called procedure begins is one of the lines on which the procedure stands.
pub fn each_called_statement_is_on_a_line()
    ensures { StatementsAreOnLines }
{}

/// Where the statement of a called procedure is found, the call is refused for it.
pub fn each_call_with_a_statement_is_refused()
    ensures { CallsAreRefused }
{}
