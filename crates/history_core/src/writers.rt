//! The lanes of writers.
use crate::lane::{Lane, What};
use crate::look::Look;
use crate::words::text_of;
use jcl_plan::entry::Entry;
use plain::draft::Draft;
use std::alloc::{AllocError, Global};

/// A writer, by its class, and whose lines it writes: from the first line of a job to the last.
#[derive(Drop)]
pub struct WriterLane {
    pub class: u8,
    pub lane: Lane,
}

/// The lanes of the writers that wrote a line.
#[derive(Drop)]
pub struct Writers {
    pub lanes: Vec<WriterLane>,
}

impl Writers {
    pub fn empty(alloc: Global) -> Writers {
        Writers {
            lanes: Vec::new(alloc),
        }
    }

    fn has(&self, class: u8) -> bool {
        for lane in &self.lanes {
            if lane.class == class {
                return true;
            }
        }
        false
    }

    fn add_line(
        &mut self,
        alloc: Global,
        event: u32,
        class: u8,
        job: u16,
        text: &[u8],
    ) -> Result<(), AllocError> {
        if !self.has(class) {
            self.lanes.push(WriterLane {
                class,
                lane: Lane::empty(alloc),
            })?;
        }
        let what = What {
            look: Look::Writes,
            job,
            number: 0,
        };
        for lane in &mut self.lanes {
            if lane.class == class {
                lane.lane.extend(alloc, event, what)?;
                lane.lane.tell(text)?;
            }
        }
        Ok(())
    }

    /// An event's lines.
    pub fn add(
        &mut self,
        alloc: Global,
        event: u32,
        lines: &[Entry],
        draft: &mut Draft,
    ) -> Result<(), AllocError> {
        for entry in lines {
            if let Entry::Writer { class, job, .. } = entry {
                text_of(entry, draft)?;
                self.add_line(alloc, event, *class, *job, draft.kept())?;
            }
        }
        Ok(())
    }
}
