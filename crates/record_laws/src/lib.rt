//! Laws of what the records of the queue denote. They have no code: a law is a function that does nothing, and its contract is the law.
#![tactic(auto)]

ghost use Rattle.record_laws.specs.RecordLaws.{NoneInCommon, OneJobIsDenoted};

/// The records that begin with a JCT denote one job at most.
pub fn one_job_is_denoted()
    ensures { OneJobIsDenoted }
{}

/// Two jobs that records denote have no record in common.
pub fn none_in_common()
    ensures { NoneInCommon }
{}
