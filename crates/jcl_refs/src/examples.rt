//! Worked examples: decks, and the plans of their jobs.
ghost use Rattle.jcl_refs.specs.Examples.{Plans};

/// Each is computed.
pub fn plans()
    ensures { Plans }
{}
