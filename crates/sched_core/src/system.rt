//! The machine.
ghost use Rattle.std.specs.Prelude.{◌≡◌, ◌≤◌, Err, IfErr, IfOk, OnErr, map, take};
ghost use Rattle.cb_queue.specs.RecordQueues.{empty_queue};
ghost use Rattle.config_core.specs.Configs.{Configuration};
ghost use Rattle.config_core.specs.Configured.{IsConfigured};
ghost use Rattle.config_core.specs.Starts.{IsTakenApart};
ghost use Rattle.shared_core.specs.Sizes.{VolumesHaveTheirSizes};
ghost use Rattle.world_meaning.specs.Transitions.{Transition};
ghost use Rattle.sched_core.specs.Events.{RefusesFirst};
ghost use Rattle.machine_meaning.specs.declared.machine.TheConstants.{MOST_JOBS};
ghost use Rattle.queued_job.specs.Opening.{CanBegin};
ghost use Rattle.sched_core.specs.Starting.{IsForMachine, IsOpened, IsStarted, OfEachTakenApart};
ghost use Rattle.sched_core.specs.Promised.{KeepsPromises};
ghost use Rattle.sched_core.specs.Systems.{Applies, IsDriven, IsNext, IsWhole, KeepsIfRefused, Steps, denoting, meant_by, world_of};

use crate::ending::end;
use crate::fault::ApplyFault;
use crate::happening::apply_in;
use crate::laws::chains_keep_promises;
use crate::start::{backlog_of, idle_of, started};
use crate::state::State;
use case_laws::starts_supplied;
use cb_queue::store::RecordStore;
use cb_read::records::are_records;
use config_core::laws::jobs_may_wait_at_the_start;
use config_core::start::Fixed;
use init_core::running::Profile;
use jcl_plan::entry::Entry;
use jcl_refs::units::UnitNames;
use law_core::starts_sound;
use plain::listed::Listed;
use proc_library::library::ProcLibrary;
use queued_job::laws::layout_reads_what_it_holds;
use session_input::event::Event;
use shared_core::store::SharedStore;
use shared_core::sums::{volumes_are_laid_out, volumes_have_their_sizes};
use std::alloc::{AllocError, Global};
use std::marker::Model;

/// What came of a list of events.
#[derive(Drop)]
pub struct Driven {
    /// The lines of each event that was done.
    pub entries: Vec<Listed<Entry>>,
    /// How many events were done, counted from the first on.
    pub done: usize,
}

/// The machine between two events, over any store of records.
pub struct System<'c, Q: RecordStore> {
    alloc: Global,
    pub(crate) profile: Profile<'c>,
    units: &'c UnitNames,
    library: &'c ProcLibrary,
    pub(crate) state: State<Q>,
}

impl<'c, Q: RecordStore> Model for System<'c, Q> {
    ghost use Rattle.std.specs.Coded.{codes};
    ghost use Rattle.cat_core.specs.Catalogs.{coded_contents};
    ghost use Rattle.mount_core.specs.Mounts.{coded_mounted};
    ghost use Rattle.sched_core.specs.Systems.{IsSystem, Machine, machine_in};

    ghost Value = { Machine };

    ghost coded = { Prim.hlevel (codes, coded_mounted, coded_contents) };

    ghost view = { λ s. machine_in Q.queue s.profile s.units.now s.library.now s.state };

    ghost invariant = { λ s. IsSystem Q.queue s.profile s.units.now s.state };
}

impl<'c, Q: RecordStore> System<'c, Q> {
    /// The machine of a configuration that was taken apart, before its first event, with a queue of which no record is in use.
    pub fn new(
        alloc: Global,
        store: SharedStore,
        queue: Q,
        fixed: &'c Fixed,
        refuses: bool,
        most_views: usize,
        explains: bool,
    ) -> Result<System<'c, Q>, AllocError>
    where
        Q: Drop,
        requires configured { (c : Configuration) × IsConfigured c × IsTakenApart c store fixed.now }
        requires empty { Q.queue queue ≡ empty_queue (Q.queue queue).layout }
        requires layout { IsForMachine (Q.queue queue).layout }
        ensures started { IfOk result (λ m. OfEachTakenApart store fixed.now (λ c. IsStarted c refuses most_views explains (Q.queue queue).layout m)) }
        ensures whole { IfOk result IsWhole }
    {
        match System::open_queue(
            alloc,
            store,
            queue,
            &[],
            0,
            fixed,
            refuses,
            most_views,
            explains,
        ) {
            Ok(system) => Ok(system),
            Err(_) => Err(AllocError),
        }
    }

    /// The machine of a configuration that was taken apart, before its first event, with a queue in which jobs wait: these, of which nothing was written yet.
    /// The numbers of the jobs that are read go on behind the last. Where memory is missing the queue is given back.
    pub fn open_queue(
        alloc: Global,
        store: SharedStore,
        queue: Q,
        waiting: &[u16],
        last: u16,
        fixed: &'c Fixed,
        refuses: bool,
        most_views: usize,
        explains: bool,
    ) -> Result<System<'c, Q>, Q>
        requires configured { (c : Configuration) × IsConfigured c × IsTakenApart c store fixed.now }
        requires waiting { waiting.now ≡ map (λ x. x.job) (Q.queue queue).waiting }
        requires begins { CanBegin (Q.queue queue) last }
        requires few { last ≤ MOST_JOBS }
        requires layout { IsForMachine (Q.queue queue).layout }
        ensures opened { IfOk result (λ m. OfEachTakenApart store fixed.now (λ c. IsOpened c refuses most_views explains (Q.queue queue) last m)) }
        ensures whole { IfOk result IsWhole }
        ensures back { IfErr result (λ back. back ≡ queue) }
    {
        jobs_may_wait_at_the_start();
        starts_sound();
        starts_supplied();
        layout_reads_what_it_holds();
        let _layout = queue.layout();
        let Ok(backlog) = backlog_of(alloc, waiting) else {
            return Err(queue);
        };
        let Ok(initiators) = idle_of(alloc, fixed.initiators.as_slice()) else {
            return Err(queue);
        };
        let system = System {
            alloc,
            profile: Profile {
                volumes: fixed.serials.as_slice(),
                units: fixed.units.volumes(),
                programs: &fixed.programs,
                refuses,
                most_views,
                explains,
            },
            units: fixed.units.names(),
            library: &fixed.library,
            state: started(alloc, store, queue, initiators, backlog, last),
        };
        system.is_whole();
        Ok(system)
    }

    /// One event: a case of the table, decided by the volumes as they were, whose extents follow; the machine is whole behind it. A refusal changes the count of events alone and takes no
    /// memory; want of memory changes nothing. The lines may be in the room that is lent, whose entries are dropped then.
    pub fn apply(
        &mut self,
        event: &Event<'_>,
        room: &mut Vec<Entry>,
    ) -> Result<Listed<Entry>, ApplyFault>
        ensures answer { Applies result (world_of self.old) (world_of self.new) (Steps self.old event.now) }
        ensures refusal { RefusesFirst result (Transition (denoting self.old) (world_of self.old) (meant_by event.now)) }
        ensures unless_refused { KeepsIfRefused result self.old self.new }
        ensures memory { result ≡ Err ApplyFault.Memory → self.new ≡ self.old }
        ensures next { IsNext self.old self.new }
    {
        let answer = apply_in(
            self.alloc,
            &mut self.state,
            &self.profile,
            self.units,
            self.library,
            event,
            room,
        );
        volumes_are_laid_out(self.state.parts.store.volumes.as_slice());
        are_records(&self.state.parts.queue);
        answer
    }

    /// One event, and a refusal as its line. Want of memory changes nothing.
    pub fn apply_shown(&mut self, event: &Event<'_>) -> Result<Listed<Entry>, AllocError>
        ensures step { IfOk result (λ lines. Steps self.old event.now lines (world_of self.new)) }
        ensures err { OnErr result (self.new ≡ self.old) }
        ensures next { IsNext self.old self.new }
    {
        self.is_whole();
        let mut line = Vec::with_capacity(self.alloc, 1)?;
        let mut room = Vec::new(self.alloc);
        match self.apply(event, &mut room) {
            Ok(lines) => Ok(lines),
            Err(ApplyFault::Refused(cause)) => {
                line.push_reserved(Entry::Refused(cause));
                Ok(Listed::new(line))
            }
            Err(ApplyFault::Memory) => Err(AllocError),
        }
    }

    /// Events one after another, up to the first that wants memory. A refusal is shown as its line. From a machine with no event yet, what is promised
    /// of each job that is answered ASSURED is kept.
    pub fn drive(&mut self, events: &[Event<'_>]) -> Driven
        ensures done { IsDriven self.old events.now result.entries.items result.done self.new }
        ensures promised { KeepsPromises self.old (take result.done events.now) result.entries.items self.new }
    {
        chains_keep_promises();
        let mut entries = Vec::new(self.alloc);
        let mut done = 0;
        for event in events {
            let Ok(()) = entries.reserve(1) else {
                return Driven { entries, done };
            };
            let Ok(lines) = self.apply_shown(event) else {
                return Driven { entries, done };
            };
            entries.push_reserved(lines);
            done += 1;
        }
        Driven { entries, done }
    }

    /// On each volume the tracks that are free, those that are kept, those of sets and those that are never free add up to its size.
    pub fn volumes_have_their_sizes(&self)
        ensures { VolumesHaveTheirSizes self.now.parts.store }
    {
        volumes_have_their_sizes(&self.state.parts.store);
    }

    /// The machine's volumes are those that are configured, in their order. On each no track is in two extents and no extent is without a track; those of sets
    /// and those that are kept are marked so, and no others are. So the tracks that are free are those of no set that are not kept, but for those that are
    /// never free. The records of its queue are whole and of bytes.
    pub fn is_whole(&self)
        ensures { IsWhole self.now }
    {
        volumes_are_laid_out(self.state.parts.store.volumes.as_slice());
        are_records(&self.state.parts.queue);
    }

    /// Takes the machine apart, with the jobs that it still has. It takes no memory.
    pub fn close(self)
    where
        Q: Drop,
    {
        let System {
            alloc: _,
            profile: _,
            units: _,
            library: _,
            state,
        } = self;
        end(state);
    }
}
