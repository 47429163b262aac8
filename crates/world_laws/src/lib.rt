//! Laws of the whole machine. They have no code: a law is a function that does nothing, and its contract is the law.
#![tactic(auto)]

ghost use Rattle.world_laws.specs.Beside.{FitsStay, PartsStay, RunningStays, TurnFits, TurnKeepsPart};
ghost use Rattle.world_laws.specs.JobTurns.{TurnsRun};
ghost use Rattle.world_laws.specs.KeptTracks.{KeptStay};
ghost use Rattle.world_laws.specs.Looks.{ActLooks};
ghost use Rattle.world_meaning.specs.Records.{IsQueueLayout};
ghost use Rattle.world_laws.specs.RecordsKept.{DenotesStill, RecordsStay};
ghost use Rattle.cb_meaning.specs.declared.layout.TheConstants.{LAYOUT_1, LAYOUT_2};

/// An admitted job's turn changes nothing that a job with compatible names sees of the store.
pub fn turn_keeps_part()
    ensures { TurnKeepsPart }
{}

/// No event changes what a job sees of the store, but a turn of its own.
pub fn parts_stay()
    ensures { PartsStay }
{}

/// The own state of an admitted job fits what is left of its agenda behind its turn too.
pub fn turn_fits()
    ensures { TurnFits }
{}

/// It does behind any event.
pub fn fits_stay()
    ensures { FitsStay }
{}

/// What is at an initiator stays as it is behind each event but its own turn, and the cancel of its job before that is admitted.
pub fn running_stays()
    ensures { RunningStays }
{}

/// The tracks that are kept for a job stay as they are, but for its own turns, and for its cancel before it is admitted.
pub fn kept_stay()
    ensures { KeptStay }
{}

/// Each layout keeps its link and the status bytes apart from its fields.
pub fn layouts_have_own_links()
    ensures first { IsQueueLayout LAYOUT_1 }
    ensures second { IsQueueLayout LAYOUT_2 }
{}

/// Records that are in use still and differ in links and status bytes alone denote what they denoted.
pub fn denotes_still()
    ensures { DenotesStill }
{}

/// From its selection on the records of a job go on denoting its plan, until the job is over.
pub fn records_stay()
    ensures { RecordsStay }
{}

/// Of what a job does not decide itself an action looks at a cancel, at a growth where it asks one, and at its step's end alone.
pub fn act_looks()
    ensures { ActLooks }
{}

/// The turns of an assured job wrote what stands first in its solo meaning for some answers, and all of it where no action is left.
pub fn turns_run()
    ensures { TurnsRun }
{}
