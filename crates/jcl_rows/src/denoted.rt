//! What jobs decks denote, and which refusal is told first: laws that are computed.
ghost use Rattle.jcl_rows.specs.Denoted.{DenotesJobs, HasLimits, RefusesJobs};

/// Jobs, and their plans.
pub fn denotes_jobs()
    ensures { DenotesJobs }
{}

/// The refusal that is told first.
pub fn refuses_jobs()
    ensures { RefusesJobs }
{}

/// So many steps, DDs, DDNAME keywords and names, and one more.
pub fn has_limits()
    ensures { HasLimits }
{}
