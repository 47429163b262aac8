//! What is seen of the machine between two events. Nothing changes, and no memory is taken.
ghost use Rattle.std.specs.Prelude.{◌≡◌, Some, length, slice_get};
ghost use Rattle.std.specs.Option.{option_map};
ghost use Rattle.cb_queue.specs.RecordQueues.{RecordQueue};
ghost use Rattle.init_core.specs.Running.{shown_running, shown_stage};
ghost use Rattle.machine_core.specs.Shown.{shown};
ghost use Rattle.spool_core.specs.Sets.{has_set};
ghost use Rattle.turn_core.specs.declared.walk.Walk.{Walk};
ghost use Rattle.world_meaning.specs.Worlds.{Config};
ghost use Rattle.sched_core.specs.Machines.{shown_initiator};
ghost use Rattle.sched_core.specs.Systems.{world_of};
ghost use Rattle.store_core.specs.Expiries.{expiry_of};
ghost use Rattle.world_meaning.specs.Lenses.{seen};
ghost use Rattle.sched_core.specs.Views.{IsNext, phase_of, seen_initiator, seen_job, seen_volume};

use crate::state::Initiator;
use crate::system::System;
use cb_queue::store::RecordStore;
use enq_core::table::Hold;
use init_core::running::{Running, Stage};
use jname_core::key::Key;
use jname_core::serial::Serial;
use machine_core::parts::Parts;
use machine_core::tracks::{VolumeTracks, tracks_on};
use plain::short::Short;
use queued_job::laws::waiting_are_listed;
use queued_job::selecting::select;
use store_core::expiry::expiry_of;

/// How far an initiator is with its job.
#[derive(Clone, Copy, PartialEq, Eq)]
pub enum Phase {
    /// Its records are not read yet.
    Selected,
    /// It waits for its names.
    Wanting,
    /// Its names are held.
    Named,
    Admitted,
}

/// A job at an initiator.
#[derive(Clone, Copy)]
pub struct SeenJob {
    pub job: u16,
    pub phase: Phase,
}

/// An initiator, the classes that it selects from, in their order, and its job.
#[derive(Clone, Copy)]
pub struct SeenInitiator {
    pub number: u8,
    pub classes: Short<8>,
    pub job: Option<SeenJob>,
}

/// A volume: its free tracks, those that are kept for jobs, and whether an operation is under way on it.
#[derive(Clone, Copy)]
pub struct SeenVolume {
    pub serial: Serial,
    pub free: usize,
    pub kept: usize,
    pub busy: bool,
}

fn phase_of(stage: &Stage) -> Phase
    ensures { (c : Config) (walk : Walk) → result ≡ phase_of (shown_stage c walk stage.now) }
{
    match stage {
        Stage::Selected { .. } => Phase::Selected,
        Stage::Wanting { .. } => Phase::Wanting,
        Stage::Named(_) => Phase::Named,
        Stage::Admitted(_) => Phase::Admitted,
    }
}

fn seen_job(running: &Running) -> SeenJob
    ensures { (c : Config) (q : RecordQueue) → result ≡ seen_job (shown_running c q running.now) }
{
    SeenJob {
        job: running.job,
        phase: phase_of(&running.stage),
    }
}

fn seen_initiator(x: &Initiator) -> SeenInitiator
    ensures { (c : Config) (q : RecordQueue) → result ≡ seen_initiator (shown_initiator c q x.now) }
{
    let job = match &x.running {
        None => None,
        Some(running) => Some(seen_job(running)),
    };
    SeenInitiator {
        number: x.number,
        classes: x.classes,
        job,
    }
}

fn seen_volume<Q: RecordStore>(parts: &Parts<Q>, serial: Serial) -> SeenVolume
    ensures { result ≡ seen_volume (shown Q.queue parts.now) serial }
{
    let VolumeTracks { free, kept } = tracks_on(parts.store.volumes.as_slice(), serial);
    SeenVolume {
        serial,
        free,
        kept,
        busy: parts.units.is_busy(serial),
    }
}

impl<'c, Q: RecordStore> System<'c, Q> {
    pub fn initiator_count(&self) -> usize
        ensures { result ≡ length (world_of self.now).initiators }
    {
        self.state.initiators.len()
    }

    /// The initiator at a place of the configuration, counted from 0.
    pub fn initiator_at(&self, place: usize) -> Option<SeenInitiator>
        ensures { result ≡ option_map seen_initiator (slice_get (world_of self.now).initiators place) }
    {
        match self.state.initiators.get(place) {
            None => None,
            Some(x) => Some(seen_initiator(x)),
        }
    }

    pub fn volume_count(&self) -> usize
        ensures { result ≡ length (world_of self.now).config.volumes }
    {
        self.profile.volumes.len()
    }

    /// The volume at a place of the configuration, counted from 0.
    pub fn volume_at(&self, place: usize) -> Option<SeenVolume>
        ensures { result ≡ option_map (seen_volume (world_of self.now).shared) (slice_get (world_of self.now).config.volumes place) }
    {
        match self.profile.volumes.get(place) {
            None => None,
            Some(serial) => Some(seen_volume(&self.state.parts, *serial)),
        }
    }

    /// The day before which the data set that a job names so is not to be deleted, counted from 1900/001 as 0: none where the data set is not on that volume,
    /// or has no such day.
    pub fn expiry_of(&self, job: u16, key: &Key, serial: Serial) -> Option<u32>
        ensures { result ≡ expiry_of (seen job (world_of self.now).shared.store) key.now serial }
    {
        expiry_of(&self.state.parts.store, job, key, serial)
    }

    /// How many names are held.
    pub fn hold_count(&self) -> usize
        ensures { result ≡ length (world_of self.now).shared.holds }
    {
        self.state.parts.names.holds().len()
    }

    /// The name at a place in the order in which they were held, counted from 0, and which job holds it.
    pub fn hold_at(&self, place: usize) -> Option<Hold>
        ensures { result ≡ slice_get (world_of self.now).shared.holds place }
    {
        match self.state.parts.names.holds().get(place) {
            None => None,
            Some(hold) => Some(*hold.hold()),
        }
    }

    /// The job of a class that is selected next, if one waits.
    pub fn next_of(&self, class: u8) -> Option<u16>
        ensures { IsNext (world_of self.now).waiting class result }
    {
        waiting_are_listed();
        match select(&self.state.parts.queue, &[class]) {
            None => None,
            Some(queued) => Some(queued.job),
        }
    }

    /// Whether the writers have a line of a class.
    pub fn has_output(&self, class: u8) -> bool
        ensures { result ≡ has_set (world_of self.now).shared.spool class }
    {
        self.state.parts.spool.has_set(class)
    }

    /// How many events came.
    pub fn event_count(&self) -> usize
        ensures { result ≡ (world_of self.now).events }
    {
        usize::from(self.state.events)
    }
}
