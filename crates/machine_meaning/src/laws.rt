//! The limits, without code: a law is a function that does nothing, and its contract is the law.
ghost use Rattle.machine_meaning.specs.Limits.{AreThoseOfTheProfile};

/// Each limit is the number that this profile gives it.
pub fn limits_are_those_of_the_profile()
    ensures { AreThoseOfTheProfile }
{}
