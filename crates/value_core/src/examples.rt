//! Values of worked examples, and their faults: laws that are computed.
ghost use Rattle.value_core.specs.Examples.{ReadsNames, ReadsOthers, ReadsSpaces, ReadsVolumes};

/// DSNAME.
pub fn reads_names()
    ensures { ReadsNames }
{}

/// VOLUME.
pub fn reads_volumes()
    ensures { ReadsVolumes }
{}

/// SPACE.
pub fn reads_spaces()
    ensures { ReadsSpaces }
{}

/// DISP, UNIT, LABEL and PARM.
pub fn reads_others()
    ensures { ReadsOthers }
{}
