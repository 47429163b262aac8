//! Laws of the primaries that a store grants. They have no code: a law is a function that does nothing, and its contract is the law.
#![tactic(auto)]

ghost use Rattle.grant_laws.specs.Granted.{GrantedTurns};

/// The turn of a job whose store grants the primary of each set that it may yet make is one with all primaries granted.
pub fn granted_turns()
    ensures { GrantedTurns }
{}
