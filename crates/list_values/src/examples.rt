//! Values of worked examples, and their faults: laws that are computed.
ghost use Rattle.list_values.specs.Examples.{ReadsConditions, ReadsControlBlocks};

/// COND, of JOB and of EXEC.
pub fn reads_conditions()
    ensures { ReadsConditions }
{}

/// DCB.
pub fn reads_control_blocks()
    ensures { ReadsControlBlocks }
{}
