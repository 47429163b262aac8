//! Decks, DDs behind a call, and what references mean: laws that are computed.
ghost use Rattle.jcl_rows.specs.Decks.{FindsDds, FindsSteps, OverridesDds, ReadsDecks};

/// Decks: `read_deck` answers this of a deck's statements; here the job's name, how many symbols and statements each procedure has, and how many DDs each step.
pub fn reads_decks()
    ensures { ReadsDecks }
{}

/// DDs behind a call: `override_dds` gives these steps; here how many DDs each has.
pub fn overrides_dds()
    ensures { OverridesDds }
{}

/// The earlier step that a test means: `earlier_step` gives this.
pub fn finds_steps()
    ensures { FindsSteps }
{}

/// The earlier DD that a reference means: `target_of` gives this.
pub fn finds_dds()
    ensures { FindsDds }
{}
