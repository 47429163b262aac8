//! The lanes of volumes: their tracks, and the operations on them.
use crate::lane::{Lane, What};
use crate::look::Look;
use crate::moment::VolumeSeen;
use jname_core::serial::Serial;
use std::alloc::{AllocError, Global};

/// The tracks of a volume from an event on.
#[derive(Clone, Copy)]
pub struct Level {
    pub from: u32,
    pub free: usize,
    pub kept: usize,
}

#[derive(Drop)]
pub struct VolumeLane {
    pub serial: Serial,
    pub levels: Vec<Level>,
    pub busy: Lane,
    /// Its tracks.
    pub size: usize,
}

impl VolumeLane {
    /// A volume of so many tracks.
    pub fn new(alloc: Global, serial: Serial, size: usize) -> VolumeLane {
        VolumeLane {
            serial,
            levels: Vec::new(alloc),
            busy: Lane::empty(alloc),
            size,
        }
    }

    fn is_at(&self, seen: &VolumeSeen) -> bool {
        match self.levels.last() {
            Some(level) => level.free == seen.free && level.kept == seen.kept,
            None => false,
        }
    }

    /// The volume after an event.
    pub fn add(&mut self, alloc: Global, event: u32, seen: &VolumeSeen) -> Result<(), AllocError> {
        if !self.is_at(seen) {
            self.levels.push(Level {
                from: event,
                free: seen.free,
                kept: seen.kept,
            })?;
        }
        let what = if seen.busy {
            Some(What {
                look: Look::Busy,
                job: 0,
                number: 0,
            })
        } else {
            None
        };
        self.busy.set(alloc, event, what)
    }
}
