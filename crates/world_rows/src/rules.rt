//! Why some rules are as they are: what is false without them.
ghost use Rattle.world_rows.specs.Rules.{DeletersHoldAlone, NumbersAreResolvedOnce, TemporariesCarryTheirJob, TracksAreKeptForOne, WaitingJobsHoldNothing, ZapsComeBefore};

/// A temporary set of no job is seen by another.
pub fn temporaries_carry_their_job()
    ensures { TemporariesCarryTheirJob }
{}

/// A set is deleted while another job shares its name.
pub fn deleters_hold_alone()
    ensures { DeletersHoldAlone }
{}

/// A relative number means another generation once one is entered.
pub fn numbers_are_resolved_once()
    ensures { NumbersAreResolvedOnce }
{}

/// The records of a selected job stop denoting it.
pub fn zaps_come_before()
    ensures { ZapsComeBefore }
{}

/// Tracks that another job took are not left for the job for which they were kept.
pub fn tracks_are_kept_for_one()
    ensures { TracksAreKeptForOne }
{}

/// Two jobs wait for one another for ever.
pub fn waiting_jobs_hold_nothing()
    ensures { WaitingJobsHoldNothing }
{}
