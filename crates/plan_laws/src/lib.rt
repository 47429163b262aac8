//! Laws of the plans that decks denote. They have no code: a law is a function that does nothing, and its contract is the law.
#![tactic(auto)]

ghost use Rattle.plan_laws.specs.Examples.{Example};
ghost use Rattle.plan_laws.specs.PlanLaws.{ReferencesLookBack, StepsAreFew, TestsLookBack, UnitsAreKnown};
ghost use Rattle.plan_laws.specs.Writing.{JobIsWritable, PlanIsWritable};

/// A job has 255 steps at most, and a step 64 DDs.
pub fn steps_are_few()
    ensures { StepsAreFew }
{}

/// A step's test names an earlier step or none, and one of the JOB statement none.
pub fn tests_look_back()
    ensures { TestsLookBack }
{}

/// Where DSNAMEs are written names, an unnamed set is that of the DD itself or of an earlier one, and a volume is that of an earlier set.
pub fn references_look_back()
    ensures { ReferencesLookBack }
{}

/// A set's units are configured.
pub fn units_are_known()
    ensures { UnitsAreKnown }
{}

/// Where the values of the cards keep their ranges, records can spell the plan.
pub fn plan_is_writable()
    ensures { PlanIsWritable }
{}

/// Records can spell every job that a deck denotes.
pub fn job_is_writable()
    ensures { JobIsWritable }
{}

/// There are such cards: those of a job whose second DD is for the set of the first, on its volume.
pub fn example()
    ensures { Example }
{}
