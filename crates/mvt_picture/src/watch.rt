//! What is seen of the machine after each event.
use cb_queue::store::RecordStore;
use enq_core::table::Hold;
use history_core::history::History;
use history_core::moment::{InitiatorSeen, Moment, VolumeSeen};
use jcl_plan::entry::Entry;
use sched_core::system::System;
use std::alloc::{AllocError, Global};

/// Lists of what is seen, which are used again.
#[derive(Drop)]
pub(crate) struct Watch {
    initiators: Vec<InitiatorSeen>,
    holds: Vec<Hold>,
    volumes: Vec<VolumeSeen>,
}

impl Watch {
    pub(crate) fn new(alloc: Global) -> Watch {
        Watch {
            initiators: Vec::new(alloc),
            holds: Vec::new(alloc),
            volumes: Vec::new(alloc),
        }
    }

    fn see_initiators<Q: RecordStore>(&mut self, system: &System<'_, Q>) -> Result<(), AllocError> {
        self.initiators.clear();
        for place in 0..system.initiator_count() {
            if let Some(seen) = system.initiator_at(place) {
                let job = match seen.job {
                    Some(job) => Some(job.job),
                    None => None,
                };
                self.initiators.push(InitiatorSeen {
                    number: seen.number,
                    job,
                })?;
            }
        }
        Ok(())
    }

    fn see_holds<Q: RecordStore>(&mut self, system: &System<'_, Q>) -> Result<(), AllocError> {
        self.holds.clear();
        for place in 0..system.hold_count() {
            if let Some(hold) = system.hold_at(place) {
                self.holds.push(hold)?;
            }
        }
        Ok(())
    }

    fn see_volumes<Q: RecordStore>(&mut self, system: &System<'_, Q>) -> Result<(), AllocError> {
        self.volumes.clear();
        for place in 0..system.volume_count() {
            if let Some(seen) = system.volume_at(place) {
                self.volumes.push(VolumeSeen {
                    serial: seen.serial,
                    free: seen.free,
                    kept: seen.kept,
                    busy: seen.busy,
                })?;
            }
        }
        Ok(())
    }

    /// Keeps what is seen after an event that wrote these lines, and whether it did anything.
    pub(crate) fn keep<Q: RecordStore>(
        &mut self,
        alloc: Global,
        system: &System<'_, Q>,
        lines: &[Entry],
        acts: bool,
        history: &mut History,
    ) -> Result<(), AllocError> {
        self.see_initiators(system)?;
        self.see_holds(system)?;
        self.see_volumes(system)?;
        history.add(
            alloc,
            &Moment {
                lines,
                initiators: self.initiators.as_slice(),
                holds: self.holds.as_slice(),
                volumes: self.volumes.as_slice(),
                acts,
            },
        )
    }
}
