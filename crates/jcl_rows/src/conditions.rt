//! Tests of COND, as they are read, and the faults that are told: laws that are computed.
ghost use Rattle.jcl_rows.specs.Conditions.{ReadsConditions, RefusesConditions};

/// COND: `condition` answers this.
pub fn reads_conditions()
    ensures { ReadsConditions }
{}

/// The faults of COND that are told.
pub fn refuses_conditions()
    ensures { RefusesConditions }
{}
