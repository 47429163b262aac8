//! What classes of codes are for: a law, which has no code.
ghost use Rattle.cond_core.specs.Laws.{AgreeingCodesLeaveTheSameFate};

/// Where two codes agree on the tests of a job and on those of a step, the step has the same fate whichever of them an earlier step
/// ended with.
pub fn agreeing_codes_leave_the_same_fate()
    ensures { AgreeingCodesLeaveTheSameFate }
{}
