//! A job that is tried: the session runs up to its admission, with IEFBR14 in place of the job's programs, and then the job alone.
ghost use Rattle.session_core.specs.Opening.{IsOpened};

use crate::answers::answer::Answer;
use crate::answers::risk::{UnexpiredSet, unexpired_set};
use crate::answers::stays::day_at;
use crate::answers::told::{Told, answer_by, told_by};
use crate::trials::words::first_met;
use boxed_core::Boxed;
use chain_store::store::ChainStore;
use jcl_plan::entry::{Entry, JobLine};
use jcl_plan::plan::JobPlan;
use jname_core::key::Key;
use plain::lent::Lent;
use plain::listed::Listed;
use plain::text::Text;
use play_core::given::Given;
use run_options::Options;
use sched_core::system::System;
use sched_core::views::{Phase, SeenInitiator};
use session_core::SessionFault;
use session_core::open::{Opened, open, start};
use session_input::event::Event;
use session_text::statement::{Says, Statement};
use std::alloc::{AllocError, Global};

/// The most turns of a job that is tried.
const MOST_TURNS: u32 = 65_535;

/// The most jobs of a class that are cancelled so that a job is selected next.
const MOST_WAITING: u16 = 9_999;

/// The turns in which a job that is read again is answered: it is selected, holds its names and is admitted.
const TURNS_TO_ANSWER: u8 = 4;

/// A session, with the events by which it is played on.
#[derive(Clone, Copy)]
pub(crate) struct Played<'a, 'b, 'c> {
    pub(crate) statements: &'a [Statement<'b>],
    pub(crate) options: Options,
    pub(crate) given: &'c [Given],
}

/// A job that is tried: the place of the statement that reads it, its number, its deck with IEFBR14 in place of its programs, what its own deck denotes, and
/// whether it is run again.
#[derive(Clone, Copy)]
pub(crate) struct Trial<'a> {
    pub(crate) statement: usize,
    pub(crate) job: u16,
    pub(crate) cards: &'a [Text],
    pub(crate) plan: &'a JobPlan,
    pub(crate) again: bool,
}

/// What admission answers a job once more, and the day of the data set of its fault, where that was kept before and the deck tells none.
#[derive(Drop)]
pub(crate) struct Again {
    pub(crate) answer: Answer,
    pub(crate) day: Option<u32>,
}

/// What came of it: the lines that the job writes from its first step to its end, the day of the data set of a fault among them, where that was kept before
/// and the deck tells none, and what admission answers the job once more in the store that it leaves.
#[derive(Drop)]
pub(crate) struct Tried {
    pub(crate) lines: Listed<JobLine>,
    pub(crate) day: Option<u32>,
    pub(crate) again: Option<Again>,
}

/// How far a job is.
#[derive(Clone, Copy, PartialEq, Eq)]
enum Course {
    OnItsWay,
    Over,
    /// No event is taken any more.
    Stopped,
}

/// The event that reads these cards.
fn event_of<'a>(alloc: Global, cards: &'a [Text]) -> Result<Event<'a>, AllocError> {
    let mut lines = Listed::empty(alloc);
    for card in cards {
        lines.push(Lent::new(card.as_slice()))?;
    }
    Ok(Event::Read(Boxed::new(alloc, lines)?))
}

/// Whether a line admits this job.
fn admits(entry: &Entry, job: u16) -> bool {
    match entry {
        Entry::Job(number, JobLine::Assured { .. } | JobLine::Risk { .. }) => *number == job,
        _ => false,
    }
}

/// Gives an event, and tells whether it admits this job.
fn give(
    system: &mut System<'_, ChainStore>,
    event: &Event<'_>,
    job: u16,
) -> Result<bool, AllocError> {
    let lines = system.apply_shown(event)?;
    Ok(lines.as_slice().iter().any(|entry| admits(entry, job)))
}

/// Gives an event so many times, up to that which admits this job.
fn give_times(
    system: &mut System<'_, ChainStore>,
    event: &Event<'_>,
    times: u16,
    job: u16,
) -> Result<bool, AllocError> {
    for done in 0..times {
        let _ = done;
        if give(system, event, job)? {
            return Ok(true);
        }
    }
    Ok(false)
}

/// Gives the events of a statement, if it has some; where it reads the job that is tried, this deck in place of its own.
fn give_statement(
    system: &mut System<'_, ChainStore>,
    says: &Says<'_>,
    own: Option<&Event<'_>>,
    job: u16,
) -> Result<Option<bool>, AllocError> {
    match says {
        Says::Events(event, times) => match own {
            Some(own) => Ok(Some(give(system, own, job)?)),
            None => Ok(Some(give_times(system, event, *times, job)?)),
        },
        _ => Ok(None),
    }
}

/// Gives the events of a session up to that which admits the job that is tried, and tells whether one does.
fn run_to_admission(
    alloc: Global,
    played: Played<'_, '_, '_>,
    from: usize,
    trial: Trial<'_>,
    system: &mut System<'_, ChainStore>,
) -> Result<bool, AllocError> {
    let own = event_of(alloc, trial.cards)?;
    for (at, statement) in played.statements.iter().enumerate() {
        if at < from {
            continue;
        }
        let deck = if at == trial.statement {
            Some(&own)
        } else {
            None
        };
        match give_statement(system, &statement.says, deck, trial.job)? {
            Some(true) => return Ok(true),
            Some(false) => {}
            None => return Ok(false),
        }
    }
    for next in played.given {
        if give(system, &next.event(), trial.job)? {
            return Ok(true);
        }
    }
    Ok(false)
}

/// Whether an initiator has this job.
fn has_job(seen: &SeenInitiator, job: u16) -> bool {
    match &seen.job {
        Some(own) => own.job == job,
        None => false,
    }
}

/// The initiator that has this job.
fn initiator_of(system: &System<'_, ChainStore>, job: u16) -> Option<SeenInitiator> {
    for place in 0..system.initiator_count() {
        if let Some(seen) = system.initiator_at(place) {
            if has_job(&seen, job) {
                return Some(seen);
            }
        }
    }
    None
}

/// Keeps the lines of this job, and tells how far it is.
fn keep_lines(
    lines: &mut Listed<JobLine>,
    told: Listed<Entry>,
    job: u16,
) -> Result<Course, AllocError> {
    let mut course = Course::OnItsWay;
    for entry in told.into_vec() {
        match entry {
            Entry::Job(number, line) => {
                if number == job {
                    if matches!(&line, JobLine::End) {
                        course = Course::Over;
                    }
                    lines.push(line)?;
                }
            }
            Entry::Refused(_) => course = Course::Stopped,
            _ => {}
        }
    }
    Ok(course)
}

/// The lines of a job that is admitted, whose initiator alone acts up to its end.
fn run_alone(
    alloc: Global,
    system: &mut System<'_, ChainStore>,
    initiator: u8,
    job: u16,
) -> Result<Option<Listed<JobLine>>, AllocError> {
    let mut lines = Listed::empty(alloc);
    for done in 0..MOST_TURNS {
        let _ = done;
        let told = system.apply_shown(&Event::Turn(initiator))?;
        match keep_lines(&mut lines, told, job)? {
            Course::OnItsWay => {}
            Course::Over => return Ok(Some(lines)),
            Course::Stopped => return Ok(None),
        }
    }
    Ok(None)
}

/// Cancels what waits in a class.
fn cancel_class(system: &mut System<'_, ChainStore>, class: u8) -> Result<(), AllocError> {
    for done in 0..MOST_WAITING {
        let _ = done;
        let Some(job) = system.next_of(class) else {
            return Ok(());
        };
        system.apply_shown(&Event::Cancel(job))?;
    }
    Ok(())
}

/// Cancels the job of an initiator at a place, unless it is admitted.
fn cancel_at(system: &mut System<'_, ChainStore>, place: usize) -> Result<(), AllocError> {
    let Some(seen) = system.initiator_at(place) else {
        return Ok(());
    };
    if let Some(own) = seen.job {
        if own.phase != Phase::Admitted {
            system.apply_shown(&Event::Cancel(own.job))?;
        }
    }
    Ok(())
}

/// Cancels what would come before a job of this initiator.
fn cancel_others(
    system: &mut System<'_, ChainStore>,
    initiator: &SeenInitiator,
) -> Result<(), AllocError> {
    for place in 0..system.initiator_count() {
        cancel_at(system, place)?;
    }
    for class in initiator.classes.as_slice() {
        cancel_class(system, *class)?;
    }
    Ok(())
}

/// What lines answer this job.
fn answer_in(told: Told, job: u16) -> Option<Answer> {
    let Told {
        number: _,
        answer,
        path,
    } = told;
    let (number, line) = answer?;
    if number != job {
        return None;
    }
    answer_by(line, path)
}

/// What admission answers the same deck once more, in the store as it is, behind a run of these lines.
fn run_again(
    alloc: Global,
    system: &mut System<'_, ChainStore>,
    initiator: &SeenInitiator,
    trial: Trial<'_>,
    before: &[JobLine],
) -> Result<Option<Again>, AllocError> {
    cancel_others(system, initiator)?;
    let own = event_of(alloc, trial.cards)?;
    let read = told_by(alloc, system.apply_shown(&own)?)?;
    let Some(job) = read.number else {
        return Ok(None);
    };
    for done in 0..TURNS_TO_ANSWER {
        let _ = done;
        let lines = system.apply_shown(&Event::Turn(initiator.number))?;
        if let Some(answer) = answer_in(told_by(alloc, lines)?, job) {
            let day = day_at(alloc, &*system, job, trial.plan, &answer, before)?;
            return Ok(Some(Again { answer, day }));
        }
    }
    Ok(None)
}

/// The day of the data set of a fault that these lines of a job tell, which is over. A relative number may mean another generation by then.
fn day_in(
    alloc: Global,
    system: &System<'_, ChainStore>,
    trial: Trial<'_>,
    lines: &[JobLine],
) -> Result<Option<u32>, AllocError> {
    let Some(met) = first_met(lines) else {
        return Ok(None);
    };
    match unexpired_set(alloc, trial.plan, &met)? {
        Some(
            UnexpiredSet {
                key: Key::Relative { .. },
                volume: _,
            },
        ) => Ok(None),
        Some(UnexpiredSet { key, volume }) => Ok(system.expiry_of(trial.job, &key, volume)),
        None => Ok(None),
    }
}

/// What comes of a job that is admitted by a machine.
fn run_admitted(
    alloc: Global,
    trial: Trial<'_>,
    system: &mut System<'_, ChainStore>,
) -> Result<Option<Tried>, AllocError> {
    let Some(initiator) = initiator_of(system, trial.job) else {
        return Ok(None);
    };
    let Some(lines) = run_alone(alloc, system, initiator.number, trial.job)? else {
        return Ok(None);
    };
    let day = day_in(alloc, &*system, trial, lines.as_slice())?;
    let again = if trial.again {
        run_again(alloc, system, &initiator, trial, lines.as_slice())?
    } else {
        None
    };
    Ok(Some(Tried { lines, day, again }))
}

/// What comes of a job that is tried on a machine before its first event.
fn run_all(
    alloc: Global,
    played: Played<'_, '_, '_>,
    from: usize,
    trial: Trial<'_>,
    system: &mut System<'_, ChainStore>,
) -> Result<Option<Tried>, AllocError> {
    if run_to_admission(alloc, played, from, trial, system)? {
        run_admitted(alloc, trial, system)
    } else {
        Ok(None)
    }
}

/// What comes of a job that is tried in a session that is opened.
fn run_opened(
    alloc: Global,
    played: Played<'_, '_, '_>,
    opened: Opened,
    trial: Trial<'_>,
) -> Result<Option<Tried>, AllocError>
    requires { IsOpened played.statements.now opened }
{
    let Opened {
        store,
        fixed,
        queue,
        from,
        late: _,
    } = opened;
    let explaining = Options {
        explains: true,
        ..played.options
    };
    let mut system = start(alloc, store, queue, &fixed, explaining)?;
    let ran = run_all(alloc, played, from, trial, &mut system);
    system.close();
    ran
}

/// What comes of a job that is tried; nothing where it is not admitted, or where events are used up before its end.
pub(crate) fn run_trial(
    alloc: Global,
    played: Played<'_, '_, '_>,
    trial: Trial<'_>,
) -> Result<Option<Tried>, AllocError> {
    match open(alloc, played.statements) {
        Ok(opened) => run_opened(alloc, played, opened, trial),
        Err(SessionFault::Memory) => Err(AllocError),
        Err(_) => Ok(None),
    }
}
