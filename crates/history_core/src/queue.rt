//! The lanes of jobs that wait in the queue.
use crate::lane::{Lane, What};
use crate::look::Look;
use crate::words::text_of;
use jcl_plan::entry::{Entry, JobLine};
use plain::draft::Draft;
use std::alloc::{AllocError, Global};

/// So many jobs have a lane each.
const MOST_SLOTS: usize = 16;

/// A lane of the queue, and the job that waits there.
#[derive(Drop)]
pub struct Slot {
    pub lane: Lane,
    job: Option<u16>,
}

/// The lanes of jobs that wait to be selected, and that of the jobs beyond them.
#[derive(Drop)]
pub struct Queue {
    pub slots: Vec<Slot>,
    pub others: Lane,
    beyond: Vec<u16>,
}

impl Queue {
    pub fn empty(alloc: Global) -> Queue {
        Queue {
            slots: Vec::new(alloc),
            others: Lane::empty(alloc),
            beyond: Vec::new(alloc),
        }
    }

    fn set_others(&mut self, alloc: Global, event: u32) -> Result<(), AllocError> {
        let what = match self.beyond.len() {
            0 => None,
            number => Some(What {
                look: Look::Several,
                job: 0,
                number,
            }),
        };
        self.others.set(alloc, event, what)
    }

    /// The lane in which no job waits, which comes behind the others where each has one.
    fn free_place(&self) -> usize {
        let mut place: usize = 0;
        for slot in &self.slots {
            if slot.job.is_none() {
                return place;
            }
            place = place.saturating_add(1);
        }
        place
    }

    fn add_slot(&mut self, alloc: Global) -> Result<(), AllocError> {
        self.slots.push(Slot {
            lane: Lane::empty(alloc),
            job: None,
        })?;
        Ok(())
    }

    /// A job begins to wait.
    fn enter(
        &mut self,
        alloc: Global,
        event: u32,
        job: u16,
        text: &[u8],
    ) -> Result<(), AllocError> {
        let place = self.free_place();
        if place >= MOST_SLOTS {
            self.beyond.push(job)?;
            return self.set_others(alloc, event);
        }
        if place >= self.slots.len() {
            self.add_slot(alloc)?;
        }
        let Some(slot) = self.slots.get_mut(place) else {
            return Ok(());
        };
        slot.job = Some(job);
        let what = What {
            look: Look::Queued,
            job,
            number: 0,
        };
        slot.lane.set(alloc, event, Some(what))?;
        slot.lane.tell(text)
    }

    /// The place of a job beyond those that have a lane. It is behind the last where it is none of them.
    fn place_beyond(&self, job: u16) -> usize {
        let mut place: usize = 0;
        for other in &self.beyond {
            if *other == job {
                return place;
            }
            place = place.saturating_add(1);
        }
        place
    }

    /// A job waits no more, if it did.
    fn leave(
        &mut self,
        alloc: Global,
        event: u32,
        job: u16,
        text: &[u8],
    ) -> Result<(), AllocError> {
        for slot in &mut self.slots {
            if slot.job == Some(job) {
                slot.job = None;
                slot.lane.close(event);
                return slot.lane.tell(text);
            }
        }
        let place = self.place_beyond(job);
        if place < self.beyond.len() {
            self.beyond.remove(place);
            return self.set_others(alloc, event);
        }
        Ok(())
    }

    /// A mark of a job that waits.
    fn mark(&mut self, alloc: Global, event: u32, job: u16, text: &[u8]) -> Result<(), AllocError> {
        for slot in &mut self.slots {
            if slot.job == Some(job) {
                return slot.lane.flag(alloc, event, Look::Cancel, text);
            }
        }
        Ok(())
    }

    /// A deck was rejected: a mark in the first lane.
    fn reject(&mut self, alloc: Global, event: u32, text: &[u8]) -> Result<(), AllocError> {
        if self.slots.is_empty() {
            self.add_slot(alloc)?;
        }
        match self.slots.first_mut() {
            Some(slot) => slot.lane.flag(alloc, event, Look::Rejected, text),
            None => Ok(()),
        }
    }

    fn add_line(
        &mut self,
        alloc: Global,
        event: u32,
        entry: &Entry,
        text: &[u8],
    ) -> Result<(), AllocError> {
        match entry {
            Entry::Job(job, JobLine::Read { .. }) => self.enter(alloc, event, *job, text),
            Entry::Job(_, JobLine::Rejected(_)) => self.reject(alloc, event, text),
            Entry::Job(job, JobLine::Selected(_) | JobLine::Cancelled) => {
                self.leave(alloc, event, *job, text)
            }
            Entry::Cancel(job) => self.mark(alloc, event, *job, text),
            _ => Ok(()),
        }
    }

    /// An event's lines.
    pub fn add(
        &mut self,
        alloc: Global,
        event: u32,
        lines: &[Entry],
        draft: &mut Draft,
    ) -> Result<(), AllocError> {
        for entry in lines {
            text_of(entry, draft)?;
            self.add_line(alloc, event, entry, draft.kept())?;
        }
        Ok(())
    }
}
