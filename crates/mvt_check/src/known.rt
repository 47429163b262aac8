//! What is known of a session whose decks are looked at.
use crate::answers::answer::{Answer, Answers};
use crate::trials::words::asks_trial;
use config_core::start::Fixed;
use job_warnings::spaces::Room;
use mount_core::mounted::Mounted;
use plain::text::Text;
use play_core::given::Given;
use run_options::{Options, RiskChoice};
use session_input::event::Event;
use session_text::statement::{Says, Statement};
use std::alloc::{AllocError, Global};

/// The last turn of an initiator: the place of its statement, which counts from 0.
#[derive(Clone, Copy)]
pub(crate) struct LastTurn {
    initiator: u8,
    place: usize,
}

/// The most jobs of a session that are tried.
const MOST_TRIALS: usize = 20;

/// What jobs are compared with beside the configuration: how much the volumes have, how long initiators have turns, and what those need that are tried.
#[derive(Drop)]
pub(crate) struct Site {
    pub(crate) rooms: Vec<Room>,
    pub(crate) turns: Vec<LastTurn>,
    /// The names of the units.
    pub(crate) units: Vec<Text>,
    /// The events by which the session is played on, where a job is tried.
    pub(crate) given: Vec<Given>,
    pub(crate) options: Options,
    /// The numbers of the jobs that are tried.
    pub(crate) trials: Vec<u16>,
}

impl Site {
    /// Whether an initiator has a turn at all.
    pub(crate) fn has_turns(&self) -> bool {
        !self.turns.is_empty()
    }

    /// Whether the job of this number is tried.
    pub(crate) fn tries(&self, job: u16) -> bool {
        self.trials.iter().any(|other| *other == job)
    }

    /// Whether this initiator has a turn behind the statement at this place.
    pub(crate) fn has_turn_behind(&self, initiator: u8, place: usize) -> bool {
        self.turns
            .iter()
            .any(|turn| turn.initiator == initiator && turn.place > place)
    }
}

/// Whether a job with this answer is tried. One that may fail is not run at all where such jobs are refused.
fn is_tried(answer: &Answer, options: Options, again: bool) -> bool {
    let is_run = match answer {
        Answer::Risk { .. } => options.risk == RiskChoice::Run,
        _ => true,
    };
    is_run && asks_trial(answer, again)
}

/// Whether an event writes into the records of the queue.
fn zaps(statement: &Statement<'_>) -> bool {
    matches!(&statement.says, Says::Events(Event::Zap { .. }, _))
}

/// The numbers of the jobs that are tried, in the order of their decks. None is where records are zapped, since those of a job that is tried are others.
pub(crate) fn trials_of(
    alloc: Global,
    answers: &Answers,
    statements: &[Statement<'_>],
    options: Options,
    again: bool,
) -> Result<Vec<u16>, AllocError> {
    let mut trials = Vec::new(alloc);
    if statements.iter().any(zaps) {
        return Ok(trials);
    }
    for deck in &answers.decks {
        let Some(job) = deck.job else {
            continue;
        };
        let tried = match answers.of_job(job) {
            Some(answer) => is_tried(answer, options, again),
            None => false,
        };
        if tried && trials.len() < MOST_TRIALS {
            trials.push(job)?;
        }
    }
    Ok(trials)
}

/// The volumes of a session, each with the tracks that are not taken out of use.
pub(crate) fn rooms_of(alloc: Global, volumes: &[Mounted]) -> Result<Vec<Room>, AllocError> {
    let mut rooms = Vec::new(alloc);
    for mounted in volumes {
        let counts = mounted.volume().track_counts();
        rooms.push(Room {
            serial: mounted.serial(),
            tracks: counts
                .free
                .saturating_add(counts.aside)
                .saturating_add(counts.in_sets),
        })?;
    }
    Ok(rooms)
}

/// Notes a turn, which is behind all that are noted.
fn note_turn(turns: &mut Vec<LastTurn>, initiator: u8, place: usize) -> Result<(), AllocError> {
    turns.retain(|turn| turn.initiator != initiator);
    turns.push(LastTurn { initiator, place })?;
    Ok(())
}

/// The last turns of the initiators, in the events of these statements from this one on.
pub(crate) fn turns_of(
    alloc: Global,
    statements: &[Statement<'_>],
    from: usize,
) -> Result<Vec<LastTurn>, AllocError> {
    let mut turns = Vec::new(alloc);
    for (place, statement) in statements.iter().enumerate() {
        match &statement.says {
            Says::Events(Event::Turn(initiator), _) => note_turn(&mut turns, *initiator, place)?,
            Says::Events(_, _) => {}
            _ if place < from => {}
            _ => break,
        }
    }
    Ok(turns)
}

/// What is known of a session: what it configures, what became of its decks, what jobs are compared with, its statements, and how many lines
/// are above a deck that stands alone.
#[derive(Clone, Copy)]
pub(crate) struct Known<'a, 'b, 'c, 'd, 'e> {
    pub(crate) fixed: &'a Fixed,
    pub(crate) answers: &'b Answers,
    pub(crate) site: &'c Site,
    pub(crate) statements: &'d [Statement<'e>],
    pub(crate) above: usize,
}
