//! Worked examples: decks, and the steps that they have.
ghost use Rattle.jcl_procs.specs.Examples.{Expands};

/// Each is computed.
pub fn expands()
    ensures { Expands }
{}
