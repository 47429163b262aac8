//! Laws of a job's turn. A law is a function that does nothing, and its contract is the law.
ghost use Rattle.turn_core.specs.MachineTurns.{ActsAdvance, EndsAdvance, WaitsAdvance};
ghost use Rattle.turn_core.specs.TurnLaws.{FewLines, NoneRefused, StartsWhereSetsAre};

/// A job that waits does so in the machine.
pub fn waits_advance()
    ensures { WaitsAdvance }
{}

/// A turn that wrote lines is one of the machine's.
pub fn acts_advance()
    ensures { ActsAdvance }
{}

/// The turn of a job's last line is one of the machine's.
pub fn ends_advance()
    ensures { EndsAdvance }
{}

/// A job that names no set asks for no primary.
pub fn none_refused()
    ensures { NoneRefused }
{}

/// An action writes one line, or that of a fault and one for each DD that its step had taken.
pub fn few_lines()
    ensures { FewLines }
{}

/// An operation starts on a volume where a set stands, or on which the store grants tracks to one.
pub fn starts_where_sets_are()
    ensures { StartsWhereSetsAre }
{}
