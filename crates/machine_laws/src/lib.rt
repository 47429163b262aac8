//! Laws of the machine's steps and of sessions: what is answered, what the volumes decide, and what follows a step. They have no code: a law is a function
//! that does nothing, and its contract is the law.
#![tactic(auto)]

ghost use Rattle.machine_laws.specs.Alike.{NextIsDecided};
ghost use Rattle.machine_laws.specs.Answers.{AnswersAreExact, AnswersOfDrive};
ghost use Rattle.machine_laws.specs.Dates.{DatesChangeNoLine, RunsIgnoreTheDate, TurnsIgnoreTheDate};
ghost use Rattle.machine_laws.specs.Deciding.{ActionsAreTold, GrowthIsRefused, PrimaryIsRefused, RefusedGrowthIsTold, SetsArePlaced};
ghost use Rattle.machine_laws.specs.Inputs.{AreInputs};
ghost use Rattle.machine_laws.specs.Kept.{AssuredLinesAreKept};
ghost use Rattle.machine_laws.specs.Listing.{OneListing};
ghost use Rattle.machine_laws.specs.Next.{NextVolumesAreDecided};
ghost use Rattle.machine_laws.specs.Outcome.{OneOutcome};
ghost use Rattle.machine_laws.specs.Said.{SessionsStartPrintable};
ghost use Rattle.machine_laws.specs.Sessions.{AnswersOfSession, VolumesDecideSession};
ghost use Rattle.machine_laws.specs.Told.{WrittenCancelsComeFirst, WrittenGrowthIsRefused};

use alike_laws::events_go_alike;
use cancel_laws::cancels_come_first;
use event_laws::{answers_meet, events_are_decided};
use keep_laws::{events_keep_no_more, keeping_is_decided, next_of_is_decided};
use law_core::{soundness_is_kept, starts_sound};
use line_laws::{
    lines_are_texts, lines_of_jobs, lines_stand, texts_are_alone, whole_text_is_lines,
};
use next_laws::next_store_is_decided;
use open_laws::sameness_is_kept;
use path_laws::is_one_answer;
use path_meaning::is_never_two;
use sched_core::laws::chains_are_runs;
use session_core::laws::promises_of_a_session;
use text_laws::texts_stay_printable;
use turn_laws::jobs_end_with_over;
use walk_laws::denoted_has_no_fault;

/// What a session puts into the machine and the events that it can bring are the same, one by one.
pub fn inputs_are_events()
    ensures { AreInputs }
{}

/// What a step of the machine writes, where it is an action of a job, are the lines of that action.
pub fn actions_are_told()
    ensures { ActionsAreTold }
{}

/// SB37 stands in the place of a request only where the volumes, as they were, had no room for the tracks that it asked for.
pub fn growth_is_refused()
    ensures { GrowthIsRefused }
{}

/// Each SB37 among the lines of an event is such a request.
pub fn refused_growth_is_told()
    ensures { RefusedGrowthIsTold }
{
    growth_is_refused();
    jobs_end_with_over();
}

/// F6 is told of a DD with a key only where the configured volume on which its set is looked for had, as it was, no room for its primary.
pub fn primary_is_refused()
    ensures { PrimaryIsRefused }
{}

/// At its admission a job's sets are placed by the rule, on the volumes as they were.
pub fn sets_are_placed()
    ensures { SetsArePlaced }
{}

/// A date that is set while an admitted job runs changes no line of it, and nothing else that its turns leave.
pub fn turns_ignore_the_date()
    ensures { TurnsIgnoreTheDate }
{}

/// Up to the next time that a job asks for its admission, whatever happens happens so on any date: the same lines, and the same machine but for the date.
pub fn runs_ignore_the_date()
    ensures { RunsIgnoreTheDate }
{}

/// So a `./ DATE` between two events changes no line of any job up to then, nor anything else that is left, but for the date and the count of events.
pub fn dates_change_no_line()
    ensures { DatesChangeNoLine }
{}

/// What a job is answered holds of it in the machine as it was, and is the only answer: BROKEN where its records denote no job; ASSURED exactly where no path
/// meets a fault, no step has too many views and the volumes have room; else WAIT SPACE, RISK at the earliest place, or TOOMANY.
pub fn answers_are_exact()
    ensures { AnswersAreExact }
{
    is_never_two();
    is_one_answer();
    denoted_has_no_fault();
}

/// So is what each job is answered by the events of a list that were done.
pub fn answers_of_a_drive()
    ensures { AnswersOfDrive }
{
    answers_are_exact();
}

/// Two machines that follow one, neither by an answer ASSURED, and of which the same is shown have the same volumes, track by track.
pub fn next_volumes_are_decided()
    ensures { NextVolumesAreDecided }
{
    next_store_is_decided();
}

/// What each job of a session is answered is exact, in the machine as it was.
pub fn answers_of_a_session()
    ensures { AnswersOfSession }
{
    answers_are_exact();
}

/// Along a session SB37 stands in the place of a request only where the volumes, as they were before its event, had no room for the tracks that it asked for; F6
/// is told of a DD with a key only where the configured volume on which its set is looked for had none for its primary; and sets are placed by the rule.
pub fn volumes_decide_a_session()
    ensures { VolumesDecideSession }
{
    growth_is_refused();
    primary_is_refused();
    sets_are_placed();
}

/// Nothing is open at an event but what no event looks at, and which of the paths to its place a RISK tells.
pub fn next_is_decided()
    ensures { NextIsDecided }
{
    events_go_alike();
    events_are_decided();
    answers_meet();
    is_never_two();
    is_one_answer();
    keeping_is_decided();
    next_of_is_decided();
    events_keep_no_more();
    sameness_is_kept();
}

/// A session has one listing, or two that part first at a RISK of one job, step and DD; what is listed of fewer events stands in front.
pub fn one_listing()
    ensures { OneListing }
{
    next_is_decided();
    starts_sound();
    soundness_is_kept();
}

/// Of one text, one ending of it and one choice of options any two answers that are neither a write fault nor want of memory are the same answer, with the same
/// bytes; what is written with another is a front of these. Or the bytes part first at a RISK of one job, step and DD, of which another path or fault is told.
pub fn one_outcome()
    ensures { OneOutcome }
{
    one_listing();
}

/// Whatever text a session is, what it configures is printable.
pub fn sessions_start_printable()
    ensures { SessionsStartPrintable }
{}

/// In the bytes that a session writes, each line `nnnn ASSURED t TRACKS b ACTIONS` is kept: the whole lines behind it that begin with the job's number are a front
/// of the job's solo meaning, all of it where END is among them, and no more than b.
pub fn assured_lines_are_kept()
    ensures { AssuredLinesAreKept }
{
    lines_are_texts();
    lines_of_jobs();
    texts_are_alone();
    lines_stand();
    texts_stay_printable();
    sessions_start_printable();
    promises_of_a_session();
    chains_are_runs();
}

/// In the bytes that a session writes stand in front of each line `nnnn ABEND S222` more lines `-- CANCEL nnnn` than such lines.
pub fn written_cancels_come_first()
    ensures { WrittenCancelsComeFirst }
{
    lines_stand();
    texts_are_alone();
    whole_text_is_lines();
    texts_stay_printable();
    sessions_start_printable();
    promises_of_a_session();
    chains_are_runs();
    cancels_come_first();
}

/// There each line `nnnn ABEND SB37` is all that its event writes, and stands in the place of a request for tracks that the volumes, as they were, had no room for.
pub fn written_growth_is_refused()
    ensures { WrittenGrowthIsRefused }
{
    lines_stand();
    texts_are_alone();
    texts_stay_printable();
    sessions_start_printable();
    promises_of_a_session();
    actions_are_told();
    refused_growth_is_told();
}
