//! The lanes of held names.
use crate::lane::{Lane, What};
use crate::look::Look;
use enq_core::table::Hold;
use jname_core::ds_name::DsName;
use std::alloc::{AllocError, Global};
use std::collections::BTreeMap;
use std::mem;

/// A name, and who holds it.
#[derive(Drop)]
pub struct NameLane {
    pub name: DsName,
    pub lane: Lane,
    /// The job that held it first.
    pub first: u16,
    /// Whether another job held it or waited for it too.
    pub wanted: bool,
    /// At how many events a job waited for it.
    pub waited: usize,
    holders: Vec<u16>,
}

/// The names that a job held, by their places, from an event on up to another.
#[derive(Drop)]
pub struct JobHolds {
    pub job: u16,
    pub from: u32,
    pub to: u32,
    pub names: Vec<usize>,
}

/// The lanes of names and the jobs that held any, both in the order in which they held first.
#[derive(Drop)]
pub struct Names {
    pub lanes: Vec<NameLane>,
    pub jobs: Vec<JobHolds>,
    places: BTreeMap<DsName, usize>,
    holds: Vec<Hold>,
}

/// The lowest of these jobs.
fn lowest(jobs: &[u16]) -> u16 {
    let mut lowest = u16::MAX;
    for job in jobs {
        lowest = lowest.min(*job);
    }
    lowest
}

impl NameLane {
    fn new(alloc: Global, hold: &Hold) -> NameLane {
        NameLane {
            name: hold.name,
            lane: Lane::empty(alloc),
            first: hold.job,
            wanted: false,
            waited: 0,
            holders: Vec::new(alloc),
        }
    }

    fn set(&mut self, alloc: Global, event: u32, exclusive: bool) -> Result<(), AllocError> {
        let look = if exclusive { Look::Alone } else { Look::Shared };
        let what = match self.holders.len() {
            0 => None,
            number => Some(What {
                look,
                job: lowest(self.holders.as_slice()),
                number,
            }),
        };
        self.lane.set(alloc, event, what)
    }

    fn begin(&mut self, alloc: Global, event: u32, hold: &Hold) -> Result<(), AllocError> {
        if hold.job != self.first {
            self.wanted = true;
        }
        self.holders.push(hold.job)?;
        self.set(alloc, event, hold.exclusive)
    }

    fn end(&mut self, alloc: Global, event: u32, hold: &Hold) -> Result<(), AllocError> {
        let mut place: usize = 0;
        for job in &self.holders {
            if *job == hold.job {
                break;
            }
            place = place.saturating_add(1);
        }
        if place < self.holders.len() {
            self.holders.remove(place);
        }
        self.set(alloc, event, hold.exclusive)
    }
}

impl Names {
    pub fn empty(alloc: Global) -> Names {
        Names {
            lanes: Vec::new(alloc),
            jobs: Vec::new(alloc),
            places: BTreeMap::new(alloc),
            holds: Vec::new(alloc),
        }
    }

    /// The place of a hold's name, which gets a lane where it has none.
    fn place_of(&mut self, alloc: Global, hold: &Hold) -> Result<usize, AllocError> {
        if let Some(place) = self.places.get(&hold.name) {
            return Ok(*place);
        }
        let place = self.lanes.len();
        self.lanes.push(NameLane::new(alloc, hold))?;
        let Ok(_) = self.places.insert(hold.name, place) else {
            return Err(AllocError);
        };
        Ok(place)
    }

    /// A job holds the name at a place.
    fn add_to_job(
        &mut self,
        alloc: Global,
        event: u32,
        job: u16,
        place: usize,
    ) -> Result<(), AllocError> {
        if let Some(last) = self.jobs.last_mut() {
            if last.job == job {
                last.names.push(place)?;
                return Ok(());
            }
        }
        let mut names = Vec::new(alloc);
        names.push(place)?;
        self.jobs.push(JobHolds {
            job,
            from: event,
            to: u32::MAX,
            names,
        })?;
        Ok(())
    }

    fn begin(&mut self, alloc: Global, event: u32, hold: &Hold) -> Result<(), AllocError> {
        let place = self.place_of(alloc, hold)?;
        self.add_to_job(alloc, event, hold.job, place)?;
        match self.lanes.get_mut(place) {
            Some(lane) => lane.begin(alloc, event, hold),
            None => Ok(()),
        }
    }

    fn end(&mut self, alloc: Global, event: u32, hold: &Hold) -> Result<(), AllocError> {
        for job in self.jobs.iter_mut().rev() {
            if job.job == hold.job {
                job.to = job.to.min(event);
                break;
            }
        }
        let place = self.place_of(alloc, hold)?;
        match self.lanes.get_mut(place) {
            Some(lane) => lane.end(alloc, event, hold),
            None => Ok(()),
        }
    }

    /// The holds after an event, of which those from a place on are new.
    fn begin_from(
        &mut self,
        alloc: Global,
        event: u32,
        holds: &[Hold],
        from: usize,
    ) -> Result<(), AllocError> {
        let (_, new) = holds.split_at(from.min(holds.len()));
        for hold in new {
            self.begin(alloc, event, hold)?;
        }
        Ok(())
    }

    /// Ends the holds that are no more. How many of the new ones were there before: they come first, in their old order.
    fn end_old(
        &mut self,
        alloc: Global,
        event: u32,
        before: &[Hold],
        holds: &[Hold],
    ) -> Result<usize, AllocError> {
        let mut kept: usize = 0;
        for old in before {
            if holds.get(kept) == Some(old) {
                kept = kept.saturating_add(1);
            } else {
                self.end(alloc, event, old)?;
            }
        }
        Ok(kept)
    }

    /// The holds after an event.
    pub fn add(&mut self, alloc: Global, event: u32, holds: &[Hold]) -> Result<(), AllocError> {
        if self.holds.as_slice() == holds {
            return Ok(());
        }
        let before = mem::replace(&mut self.holds, Vec::from_slice(alloc, holds)?);
        let kept = self.end_old(alloc, event, before.as_slice(), holds)?;
        self.begin_from(alloc, event, holds, kept)
    }

    /// A job waits for a name at an event.
    pub fn wait(&mut self, name: DsName) {
        let place = match self.places.get(&name) {
            Some(place) => *place,
            None => return,
        };
        if let Some(lane) = self.lanes.get_mut(place) {
            lane.wanted = true;
            lane.waited = lane.waited.saturating_add(1);
        }
    }
}
