//! The paths of a job: definitions of what may become of it along all outcomes of its steps, and of what is reported of it before it runs.
#![tactic(auto)]

ghost use Rattle.path_meaning.specs.Verdicts.{IsNeverTwo};

/// A job of which it is told that it is free of faults has no earliest fault, and no step with too many views.
pub fn is_never_two()
    ensures { IsNeverTwo }
{}
