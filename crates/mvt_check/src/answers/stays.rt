//! Until when data sets stay that jobs would delete: the machine is asked for their days as it answers the jobs.
use crate::answers::answer::{Answer, DeckRead};
use crate::answers::risk::{Met, UnexpiredSet, unexpired_set};
use chain_store::store::ChainStore;
use config_core::start::Fixed;
use deck_places::judge::{Judged, judge};
use jcl_plan::entry::JobLine;
use jcl_plan::plan::JobPlan;
use jcl_plan::words::DispWord;
use plain::lent::Lent;
use sched_core::system::System;
use session_input::event::Event;
use session_text::statement::{Says, Statement};
use std::alloc::{AllocError, Global};
use std::collections::BTreeMap;

/// The days of data sets, counted from 1900/001 as 0, each by the number of the job that kept the data set on the way to its fault.
#[derive(Drop)]
pub struct Days {
    by_job: BTreeMap<u16, u32>,
}

impl Days {
    pub(crate) fn new(alloc: Global) -> Days {
        Days {
            by_job: BTreeMap::new(alloc),
        }
    }

    /// That of a job's data set, where it is known.
    pub(crate) fn of_job(&self, job: Option<u16>) -> Option<u32> {
        self.by_job.get(&job?).copied()
    }
}

/// The statements of a session, of which these read the decks up to now, and what it configures.
#[derive(Clone, Copy)]
pub(crate) struct Reads<'a, 'b> {
    pub(crate) statements: &'a [Statement<'b>],
    pub(crate) decks: &'a [DeckRead],
    pub(crate) fixed: &'a Fixed,
}

impl<'a, 'b> Reads<'a, 'b> {
    /// The statement that read a job. Each number is given once, in the order of the decks: so it is not before the place of the number.
    fn statement_of(&self, job: u16) -> Option<&'a Statement<'b>> {
        let from = usize::from(job).saturating_sub(1).min(self.decks.len());
        let (_, behind) = self.decks.split_at(from);
        for read in behind {
            if read.job == Some(job) {
                return self.statements.get(read.statement);
            }
        }
        None
    }

    /// The cards of a job.
    fn cards_of(&self, job: u16) -> Option<&'a [Lent<'b>]> {
        match &self.statement_of(job)?.says {
            Says::Events(Event::Read(cards), _) => Some(cards.get().as_slice()),
            _ => None,
        }
    }

    /// What the deck of a job denotes.
    fn plan_of(&self, alloc: Global, job: u16) -> Result<Option<JobPlan>, AllocError> {
        let Some(cards) = self.cards_of(job) else {
            return Ok(None);
        };
        match judge(alloc, self.fixed.units.names(), &self.fixed.library, cards)? {
            Judged::Taken(plan, _) => Ok(Some(plan)),
            Judged::Refused(_, _) => Ok(None),
        }
    }
}

/// Whether a line tells that a data set was kept since it has not expired.
fn is_unexpired(line: &JobLine) -> bool {
    match line {
        JobLine::Disp { word, .. } | JobLine::Left { word, .. } => *word == DispWord::Unexpired,
        _ => false,
    }
}

/// The fault that an answer tells, behind a run of these lines.
fn met_by<'a>(answer: &'a Answer, before: &'a [JobLine]) -> Option<Met<'a>> {
    match answer {
        Answer::Risk {
            fault,
            step,
            dd,
            path,
            lines,
        } => Some(Met {
            fault: *fault,
            step: *step,
            dd: *dd,
            path: path.as_slice(),
            lines: lines.as_slice(),
            naming: &[],
            before,
            day: None,
        }),
        _ => None,
    }
}

/// The day of the data set of a fault which the machine has just told of a job, behind a run of these lines.
pub(crate) fn day_at(
    alloc: Global,
    system: &System<'_, ChainStore>,
    job: u16,
    plan: &JobPlan,
    answer: &Answer,
    before: &[JobLine],
) -> Result<Option<u32>, AllocError> {
    let Some(met) = met_by(answer, before) else {
        return Ok(None);
    };
    match unexpired_set(alloc, plan, &met)? {
        Some(UnexpiredSet { key, volume }) => Ok(system.expiry_of(job, &key, volume)),
        None => Ok(None),
    }
}

/// Whether a job is answered that it may fail behind a data set that was kept since it has not expired.
fn has_unexpired(answer: &Answer) -> bool {
    match answer {
        Answer::Risk { lines, .. } => lines.as_slice().iter().any(is_unexpired),
        _ => false,
    }
}

impl Days {
    /// Notes the day of the data set of the fault that a job has just been answered, if it kept that on the way there.
    fn note(
        &mut self,
        alloc: Global,
        system: &System<'_, ChainStore>,
        reads: Reads<'_, '_>,
        job: u16,
        answer: &Answer,
    ) -> Result<(), AllocError> {
        if !has_unexpired(answer) {
            return Ok(());
        }
        let Some(plan) = reads.plan_of(alloc, job)? else {
            return Ok(());
        };
        if let Some(day) = day_at(alloc, system, job, &plan, answer, &[])? {
            self.by_job.insert(job, day)?;
        }
        Ok(())
    }
}

/// Notes the day of the data set of the fault that a job has just been answered, if it kept that on the way there.
pub(crate) fn note_day(
    alloc: Global,
    days: &mut Days,
    system: &System<'_, ChainStore>,
    reads: Reads<'_, '_>,
    job: Option<u16>,
    by_job: &[Option<Answer>],
) -> Result<(), AllocError> {
    let Some(job) = job else {
        return Ok(());
    };
    match by_job.get(usize::from(job)) {
        Some(Some(answer)) => days.note(alloc, system, reads, job, answer),
        _ => Ok(()),
    }
}
