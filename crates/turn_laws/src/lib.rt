//! Laws of a turn of an admitted job, where a store decides what is granted. They have no code: a law is a function that does nothing, and its contract is the
//! law.
#![tactic(auto)]

ghost use Rattle.turn_laws.specs.Decided.{JobsEndWithOver, TurnsAreDecided};

/// The last action of a job is its END.
pub fn jobs_end_with_over()
    ensures { JobsEndWithOver }
{}

/// Two turns of an admitted job from one machine, each with what the store grants, write the same lines and leave the same, but for the free tracks, which the
/// volumes have.
pub fn turns_are_decided()
    ensures { TurnsAreDecided }
{}
