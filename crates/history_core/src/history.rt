//! What is kept of a session, event by event,
use crate::dates::Dates;
use crate::initiators::InitiatorLane;
use crate::jobs::Jobs;
use crate::levels::VolumeLane;
use crate::moment::Moment;
use crate::names::Names;
use crate::queue::Queue;
use crate::still::Stills;
use crate::writers::Writers;
use jcl_plan::entry::{Entry, JobLine};
use jname_core::serial::Serial;
use plain::draft::Draft;
use std::alloc::{AllocError, Global};

/// What has changed from event to event.
#[derive(Drop)]
pub struct History {
    pub events: u32,
    pub jobs: Jobs,
    pub queue: Queue,
    pub initiators: Vec<InitiatorLane>,
    pub writers: Writers,
    pub names: Names,
    pub volumes: Vec<VolumeLane>,
    pub stills: Stills,
    pub dates: Dates,
    draft: Draft,
}

impl History {
    /// No event came yet.
    pub fn new(alloc: Global) -> History {
        History {
            events: 0,
            jobs: Jobs::empty(alloc),
            queue: Queue::empty(alloc),
            initiators: Vec::new(alloc),
            writers: Writers::empty(alloc),
            names: Names::empty(alloc),
            volumes: Vec::new(alloc),
            stills: Stills::empty(alloc),
            dates: Dates::empty(alloc),
            draft: Draft::empty(alloc),
        }
    }

    /// There is a volume of so many tracks.
    pub fn add_volume(
        &mut self,
        alloc: Global,
        serial: Serial,
        tracks: u16,
    ) -> Result<(), AllocError> {
        self.volumes
            .push(VolumeLane::new(alloc, serial, usize::from(tracks)))?;
        Ok(())
    }

    fn add_jobs(&mut self, lines: &[Entry]) -> Result<(), AllocError> {
        for entry in lines {
            if let Entry::Job(job, JobLine::Read { name, .. }) = entry {
                self.jobs.add(*job, *name)?;
            }
        }
        Ok(())
    }

    fn add_initiators(&mut self, alloc: Global, moment: &Moment<'_>) -> Result<(), AllocError> {
        for seen in moment.initiators {
            let mut known = false;
            for lane in &mut self.initiators {
                if lane.number == seen.number {
                    known = true;
                    lane.add(
                        alloc,
                        self.events,
                        seen,
                        moment.lines,
                        &self.jobs,
                        &mut self.draft,
                    )?;
                }
            }
            if !known {
                let mut lane = InitiatorLane::new(alloc, seen.number);
                lane.add(
                    alloc,
                    self.events,
                    seen,
                    moment.lines,
                    &self.jobs,
                    &mut self.draft,
                )?;
                self.initiators.push(lane)?;
            }
        }
        Ok(())
    }

    /// The names that are held, and those that jobs wait for.
    fn add_names(&mut self, alloc: Global, moment: &Moment<'_>) -> Result<(), AllocError> {
        self.names.add(alloc, self.events, moment.holds)?;
        for lane in &self.initiators {
            if let Some(name) = lane.wants {
                self.names.wait(name);
            }
        }
        Ok(())
    }

    fn add_volumes(&mut self, alloc: Global, moment: &Moment<'_>) -> Result<(), AllocError> {
        for seen in moment.volumes {
            for lane in &mut self.volumes {
                if lane.serial == seen.serial {
                    lane.add(alloc, self.events, seen)?;
                }
            }
        }
        Ok(())
    }

    /// The next event came. After an `Err` a part of it is kept.
    pub fn add(&mut self, alloc: Global, moment: &Moment<'_>) -> Result<(), AllocError> {
        self.add_jobs(moment.lines)?;
        self.queue
            .add(alloc, self.events, moment.lines, &mut self.draft)?;
        self.add_initiators(alloc, moment)?;
        self.writers
            .add(alloc, self.events, moment.lines, &mut self.draft)?;
        self.add_names(alloc, moment)?;
        self.add_volumes(alloc, moment)?;
        self.dates.add(self.events, moment.lines)?;
        if !moment.acts {
            self.stills.add(self.events)?;
        }
        self.events = self.events.saturating_add(1);
        Ok(())
    }
}
