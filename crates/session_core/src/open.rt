//! A session is opened, and its machine started.
ghost use Rattle.std.specs.Prelude.{◌≡◌, [], Err, IfErr, IfOk, false};
ghost use Rattle.cb_meaning.specs.declared.layout.TheConstants.{QUEUE_LAYOUT};
ghost use Rattle.cb_queue.specs.RecordQueues.{empty_queue};
ghost use Rattle.config_core.specs.Configs.{Configuration};
ghost use Rattle.config_core.specs.Configured.{IsConfigured};
ghost use Rattle.config_core.specs.Starts.{IsTakenApart};
ghost use Rattle.sched_core.specs.Starting.{OfEachTakenApart};
ghost use Rattle.session_core.specs.Opening.{IsOpened, IsStartedWith};
ghost use Rattle.session_core.specs.Outcomes.{IsOutcome, is_write_fault};
ghost use Rattle.session_core.specs.Sessions.{session_behind};
ghost use Rattle.run_options.specs.declared.Options.{Options};
ghost use Rattle.session_core.specs.declared.SessionEnd.{SessionEnd};

use crate::configure::{configure, late_in};
use crate::{SessionFault, refuses};
use cb_meaning::layout::QUEUE_LAYOUT;
use chain_store::store::ChainStore;
use config_core::config::Config;
use config_core::start::Fixed;
use run_options::Options;
use sched_core::start::queue_layout_is_for_machine;
use sched_core::system::System;
use session_text::fault::Fault;
use session_text::statement::Statement;
use shared_core::store::SharedStore;
use std::alloc::{AllocError, Global};

/// The parts of the machine that a session's statements configure, where its first event stands, and the fault of the first configuration after that.
#[derive(Drop)]
pub struct Opened {
    pub store: SharedStore,
    pub fixed: Fixed,
    pub queue: ChainStore,
    pub from: usize,
    pub late: Option<Fault>,
}

/// The queue of a machine that begins: no record is in use.
fn first_queue(alloc: Global) -> Result<ChainStore, AllocError>
    ensures { IfOk result (λ store. store.queue ≡ empty_queue QUEUE_LAYOUT) }
{
    queue_layout_is_for_machine();
    let queue = ChainStore::new(alloc, QUEUE_LAYOUT)?;
    Ok(queue)
}

/// Reads the configuration that stands before the first event. An `Err` is what the session comes to, and nothing is written then.
pub fn open(alloc: Global, statements: &[Statement<'_>]) -> Result<Opened, SessionFault>
    ensures ok { IfOk result (λ x. IsOpened statements.now x) }
    ensures err { IfErr result (λ fault. (o : Options) → IsOutcome {T = SessionEnd} o (session_behind [] statements.now) (Err fault) []) }
    ensures writes_none { is_write_fault result ≡ false }
{
    let mut config = Config::new(alloc);
    let from = match configure(&mut config, statements) {
        Ok(from) => from,
        Err(fault) => return Err(fault),
    };
    let (_, rest) = statements.split_at(from);
    let late = late_in(&mut config, rest);
    let Ok((store, fixed)) = config.take_apart() else {
        return Err(SessionFault::Memory);
    };
    let Ok(queue) = first_queue(alloc) else {
        return Err(SessionFault::Memory);
    };
    Ok(Opened {
        store,
        fixed,
        queue,
        from,
        late,
    })
}

/// The machine of an opened session before its first event, started with these options.
pub fn start<'c>(
    alloc: Global,
    store: SharedStore,
    queue: ChainStore,
    fixed: &'c Fixed,
    options: Options,
) -> Result<System<'c, ChainStore>, AllocError>
    requires configured { (c : Configuration) × IsConfigured c × IsTakenApart c store fixed.now }
    requires empty { queue.queue ≡ empty_queue QUEUE_LAYOUT }
    ensures { IfOk result (λ m. OfEachTakenApart store fixed.now (λ c. IsStartedWith options c m)) }
{
    queue_layout_is_for_machine();
    let views = usize::from(options.views);
    let system = System::new(
        alloc,
        store,
        queue,
        fixed,
        refuses(options),
        views,
        options.explains,
    )?;
    Ok(system)
}
