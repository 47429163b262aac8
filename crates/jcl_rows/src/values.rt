//! Values of keywords, as they are read, and the faults that are told: laws that are computed.
ghost use Rattle.jcl_rows.specs.Values.{CountsParameters, ReadsDispositions, ReadsLabels, ReadsReferences, ReadsSetNames, ReadsSpaces, ReadsUnits, ReadsVolumes, RefusesReferences, RefusesSetNames, RefusesSpaces, RefusesVolumes};

/// References to DDs and to steps: `dd_reference` and `step_reference` answer these.
pub fn reads_references()
    ensures { ReadsReferences }
{}

/// The faults of references that are told.
pub fn refuses_references()
    ensures { RefusesReferences }
{}

/// DISP: `disposition` answers this.
pub fn reads_dispositions()
    ensures { ReadsDispositions }
{}

/// UNIT: `unit` answers this.
pub fn reads_units()
    ensures { ReadsUnits }
{}

/// LABEL: `label_fault` tells this.
pub fn reads_labels()
    ensures { ReadsLabels }
{}

/// PARM: `parm_fault` tells this.
pub fn counts_parameters()
    ensures { CountsParameters }
{}

/// SPACE: `space` answers this.
pub fn reads_spaces()
    ensures { ReadsSpaces }
{}

/// The faults of SPACE that are told.
pub fn refuses_spaces()
    ensures { RefusesSpaces }
{}

/// DSNAME: `set_name` answers this.
pub fn reads_set_names()
    ensures { ReadsSetNames }
{}

/// The faults of DSNAME that are told.
pub fn refuses_set_names()
    ensures { RefusesSetNames }
{}

/// VOLUME: `volume_name` answers this.
pub fn reads_volumes()
    ensures { ReadsVolumes }
{}

/// The faults of VOLUME that are told.
pub fn refuses_volumes()
    ensures { RefusesVolumes }
{}
