//! Each refusal of a deck at its edge, and which of two is told: laws that are computed.
ghost use Rattle.jcl_rows.specs.Edges.{RefusesCardsAndNames, RefusesForms, RefusesProcedures, RefusesReferences, RefusesStatements, TellsTheFirst};

/// Faults of cards, and of names.
pub fn refuses_cards_and_names()
    ensures { RefusesCardsAndNames }
{}

/// Faults of statements.
pub fn refuses_statements()
    ensures { RefusesStatements }
{}

/// Tests, data, concatenations, units, values and procedures.
pub fn refuses_forms()
    ensures { RefusesForms }
{}

/// Procedures, overrides and symbols.
pub fn refuses_procedures()
    ensures { RefusesProcedures }
{}

/// Which of two faults is told; procedures of the library.
pub fn tells_the_first()
    ensures { TellsTheFirst }
{}

/// References, tests and DDNAME.
pub fn refuses_references()
    ensures { RefusesReferences }
{}
