//! Laws of a job that sees the same of two stores as it starts: the same is reported of it before it runs. They have no code: a law is a function that
//! does nothing, and its contract is the law.
#![tactic(auto)]

ghost use Rattle.start_laws.specs.Starts.{EarliestIsSeen, ExplanationIsFew, FirstWithMoreIsSeen, FreeIsSeen, MeaningsAreSeen, PathIsSeen};

use part_laws::same_meanings;

/// The keys of a job mean the same in two stores of which it sees the same.
pub fn meanings_are_seen()
    ensures { MeaningsAreSeen }
{
    same_meanings();
}

/// A job that is free of faults in the one store is so in the other, and makes its sets at the same places.
pub fn free_is_seen()
    ensures { FreeIsSeen }
{}

/// Its earliest fault is the same, on the same path.
pub fn earliest_is_seen()
    ensures { EarliestIsSeen }
{}

/// Along one list of outcomes a job writes the same lines in both.
pub fn path_is_seen()
    ensures { PathIsSeen }
{}

/// The first step with too many views is the same.
pub fn first_with_more_is_seen()
    ensures { FirstWithMoreIsSeen }
{}

/// What explains a risk is no longer than the job's budget.
pub fn explanation_is_few()
    ensures { ExplanationIsFew }
{}
