//! Worked examples: statements, and the cards that they are: laws that are computed.
ghost use Rattle.jcl_cards.specs.Examples.{ReadsExecs, ReadsJobs, ReadsProcedures};

/// JOB statements.
pub fn reads_jobs()
    ensures { ReadsJobs }
{}

/// EXEC statements.
pub fn reads_execs()
    ensures { ReadsExecs }
{}

/// PROC statements.
pub fn reads_procedures()
    ensures { ReadsProcedures }
{}
