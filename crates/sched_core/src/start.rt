//! The machine before its first event.
ghost use Rattle.std.specs.Prelude.{◌≡◌, [], IfOk, map, None};
ghost use Rattle.cb_meaning.specs.declared.layout.TheConstants.{QUEUE_LAYOUT};
ghost use Rattle.sched_core.specs.Starting.{AreRising, IsForMachine, no_lines};

use crate::state::{Initiator, State};
use cb_chain::laws::the_layouts_hold_jobs;
use cb_queue::store::RecordStore;
use enq_core::table::EnqTable;
use jcl_plan::day::Day;
use machine_core::parts::Parts;
use machine_meaning::config::ConfiguredInitiator;
use plain::listed::Listed;
use prog_core::units::Units;
use queued_job::backlog::{Backlog, Listing};
use queued_job::cancels::Cancels;
use shared_core::store::SharedStore;
use spool_core::spool::Spool;
use std::alloc::{AllocError, Global};
use world_laws::layouts_have_own_links;

/// The day 1970/001, which is the date before another is set.
pub const FIRST_DAY: u32 = 25_567;

/// The layout of a session is one for the machine's queue.
pub fn queue_layout_is_for_machine()
    ensures { IsForMachine QUEUE_LAYOUT }
{
    the_layouts_hold_jobs();
    layouts_have_own_links();
}

/// Initiators without jobs.
pub(crate) fn idle_of(
    alloc: Global,
    configured: &[ConfiguredInitiator],
) -> Result<Vec<Initiator>, AllocError>
    ensures { IfOk result (λ xs. xs.items ≡ map (λ x. record { number = x.number; classes = x.classes; running = None }) configured.now) }
{
    let mut initiators = Vec::with_capacity(alloc, configured.len())?;
    for x in configured {
        initiators.push_reserved(Initiator {
            number: x.number,
            classes: x.classes,
            running: None,
        });
    }
    Ok(initiators)
}

fn first_day() -> Day
    ensures { result ≡ FIRST_DAY }
{
    match Day::new(FIRST_DAY) {
        Some(day) => day,
        None => unreachable!(),
    }
}

/// A listing without lines for each of these jobs.
pub(crate) fn backlog_of(alloc: Global, jobs: &[u16]) -> Result<Backlog, AllocError>
    requires { AreRising jobs.now }
    ensures { IfOk result (λ backlog. backlog ≡ map no_lines jobs.now) }
{
    let mut backlog = Backlog::new(alloc);
    for job in jobs {
        backlog.enter(Listing {
            job: *job,
            lines: Listed::empty(alloc),
        })?;
    }
    Ok(backlog)
}

/// The machine with this store and this queue, whose jobs have these listings. Their numbers go up to the last.
pub(crate) fn started<Q: RecordStore>(
    alloc: Global,
    store: SharedStore,
    queue: Q,
    initiators: Vec<Initiator>,
    backlog: Backlog,
    last: u16,
) -> State<Q>
    ensures parts { result.parts ≡ record {
      store = store;
      queue = queue;
      names = [];
      units = [];
      cancels = [];
      spool = [];
      date = FIRST_DAY;
    } }
    ensures initiators { result.initiators.items ≡ initiators.items }
    ensures backlog { result.backlog ≡ backlog }
    ensures jobs { result.jobs ≡ last }
    ensures events { result.events ≡ 0 }
{
    State {
        parts: Parts {
            store,
            queue,
            names: EnqTable::new(alloc),
            units: Units::new(),
            cancels: Cancels::new(alloc),
            spool: Spool::new(alloc),
            date: first_day(),
        },
        initiators,
        backlog,
        jobs: last,
        events: 0,
    }
}
