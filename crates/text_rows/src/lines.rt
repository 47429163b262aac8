//! Lines of the listing, and their texts: laws that are computed.
ghost use Rattle.text_rows.specs.Lines.{WritesAnalyses, WritesCauses, WritesDispositions, WritesEnds, WritesFaults, WritesForWriters, WritesOthers, WritesReadings, WritesRequests, WritesSteps, WritesTakes};

/// A job that is read, selected and told to wait.
pub fn writes_readings()
    ensures { WritesReadings }
{}

/// What its analysis told.
pub fn writes_analyses()
    ensures { WritesAnalyses }
{}

/// What becomes of a step.
pub fn writes_steps()
    ensures { WritesSteps }
{}

/// What taking a DD did.
pub fn writes_takes()
    ensures { WritesTakes }
{}

/// What a disposition did, and what became of what is given back or left.
pub fn writes_dispositions()
    ensures { WritesDispositions }
{}

/// What a program asked for; a record is without the blanks at its end.
pub fn writes_requests()
    ensures { WritesRequests }
{}

/// How a program ended.
pub fn writes_ends()
    ensures { WritesEnds }
{}

/// The faults of jobs.
pub fn writes_faults()
    ensures { WritesFaults }
{}

/// The letter of each cause.
pub fn writes_causes()
    ensures { WritesCauses }
{}

/// What the writer of class C writes of a job.
pub fn writes_for_writers()
    ensures { WritesForWriters }
{}

/// The number of a job, and lines of no job.
pub fn writes_others()
    ensures { WritesOthers }
{}
