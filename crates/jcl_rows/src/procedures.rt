//! Procedures, the conditions of their steps, and decks with their steps: laws that are computed.
ghost use Rattle.jcl_rows.specs.Procedures.{ExpandsDecks, FindsProcedures, HasProcedures, OverridesConditions};

/// `ProcLibrary::find` gives this procedure; here the number of its lines.
pub fn finds_procedures()
    ensures { FindsProcedures }
{}

/// `ProcLibrary::has` gives this.
pub fn has_procedures()
    ensures { HasProcedures }
{}

/// COND of a call, for the steps A and B of its procedure: `override_conditions` gives these steps; here how many tests each has, and whether EVEN.
pub fn overrides_conditions()
    ensures { OverridesConditions }
{}

/// The steps of a deck: `expand` gives them; here whether a call brought each, and how many DDs it has.
pub fn expands_decks()
    ensures { ExpandsDecks }
{}
