//! Laws of a job's paths: of all outcomes that its steps may have, of what the job sees between two parts of its path, of a path part by part, and of a
//! step by its pieces; and that what is reported of a job before it runs is the only answer. They have no code: a law is a function that does nothing, and its
//! contract is the law.
#![tactic(auto)]

ghost use Rattle.path_laws.specs.Deciding.{SafeOrMeets};
ghost use Rattle.path_laws.specs.OneAnswer.{IsOneAnswer};
ghost use Rattle.path_laws.specs.Outcomes.{CleanByPrograms};
ghost use Rattle.path_laws.specs.Paths.{AgendaHas, AreFew, FitsBefore, MadeByStep, MadeIsConfigured, MetWithin, NoneMadeAtEnd, PathBegins, PathEnds, PathGoesOn, PathSees, StandsBefore, TellsFates};
ghost use Rattle.path_laws.specs.Steps.{EndDoes, StepDoes, StepEnds, StepPasses, StepStarts};
ghost use Rattle.path_laws.specs.ViewLaws.{PartLeaves, PartSees};

/// A job that meets no fault for any outcomes meets none whatever its programs do.
pub fn clean_by_programs()
    ensures { CleanByPrograms }
{}

/// From two states with one view, and along outcomes that nothing later tells apart, a part of a job's path has the same fates, meets the same faults
/// at the same places, makes the same sets, and leads to one view.
pub fn part_sees()
    ensures { PartSees }
{}

/// Behind a step that meets no fault the outcomes of the later steps are left.
pub fn part_leaves()
    ensures { PartLeaves }
{}

/// The path up to behind a step is the path up to before it, and the step.
pub fn path_goes_on()
    ensures { PathGoesOn }
{}

/// A whole path is its steps, and the job's end.
pub fn path_ends()
    ensures { PathEnds }
{}

/// A whole path begins with what any number of its first steps do.
pub fn path_begins()
    ensures { PathBegins }
{}

/// What a part has to do stands in the agenda of the whole path.
pub fn agenda_has()
    ensures { AgendaHas }
{}

/// Behind steps without a fault no fault has ended the job, and the outcomes of the later steps are left.
pub fn stands_before()
    ensures { StandsBefore }
{}

/// A job's own state fits what is left of its path.
pub fn fits_before()
    ensures { FitsBefore }
{}

/// Steps without a fault have written a fate each.
pub fn tells_fates()
    ensures { TellsFates }
{}

/// Steps do the same, but for their lines, whatever outcomes the later ones have.
pub fn path_sees()
    ensures { PathSees }
{}

/// Where some list within the limit has all views behind a step, there are no more than the limit.
pub fn are_few()
    ensures { AreFew }
{}

/// A fault is met at one of the actions that were run.
pub fn met_within()
    ensures { MetWithin }
{}

/// A step makes sets for its own DDs alone, on configured volumes.
pub fn made_by_step()
    ensures { MadeByStep }
{}

/// Wherever a job makes a set on some path, it is on a configured volume.
pub fn made_is_configured()
    ensures { MadeIsConfigured }
{}

/// The job's end makes no set.
pub fn none_made_at_end()
    ensures { NoneMadeAtEnd }
{}

/// What is told of a job before it runs is the only answer.
pub fn is_one_answer()
    ensures { IsOneAnswer }
{}

/// A job meets no fault, however its steps end, or on some path it meets one.
pub fn safe_or_meets()
    ensures { SafeOrMeets }
{}

/// A step that runs starts, which changes nothing that a job sees, and then does what is behind its start.
pub fn step_starts()
    ensures { StepStarts }
{}

/// A step that does not run tells its fate, and changes nothing that a job sees.
pub fn step_passes()
    ensures { StepPasses }
{}

/// Behind its start a step does the same from states that show the same, whichever code or whichever ABEND it ends by.
pub fn step_does()
    ensures { StepDoes }
{}

/// A step that runs and meets no fault stands among the ended steps, as it ended.
pub fn step_ends()
    ensures { StepEnds }
{}

/// The job's end meets the same faults from states that show the same.
pub fn end_does()
    ensures { EndDoes }
{}
