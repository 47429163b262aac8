//! Laws of strict reading: it reports a fault exactly where the records denote no job. They have no code: a law is a function that does nothing, and
//! its contract is the law.
#![tactic(auto)]

ghost use Rattle.walk_laws.specs.WalkLaws.{DenotedHasNoFault, FaultlessDenotes, FaultWhereNoneIsDenoted};

/// The records of a job that they denote have no fault.
pub fn denoted_has_no_fault()
    ensures { DenotedHasNoFault }
{}

/// Records without a fault denote the job that is read from them.
pub fn faultless_denotes()
    ensures { FaultlessDenotes }
{}

/// A fault is told exactly where no job is denoted.
pub fn fault_where_none_is_denoted()
    ensures { FaultWhereNoneIsDenoted }
{}
