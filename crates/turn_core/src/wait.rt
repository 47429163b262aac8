//! Whether an action must wait for a device.
ghost use Rattle.std.specs.Prelude.{◌≡◌, ◌<◌, length};
ghost use Rattle.jcl_meaning.specs.Agendas.{Ask};
ghost use Rattle.job_text.specs.Places.{step_at};
ghost use Rattle.prog_core.specs.Operations.{has_operation, is_busy};
ghost use Rattle.turn_core.specs.Places.{IsThere, action_of};
ghost use Rattle.turn_core.specs.Waiting.{waits_in};

use crate::todo::Task;
use crate::volume::volume_asked_for;
use crate::walk::Setting;
use jcl_meaning::program::Move;
use jcl_meaning::state::Own;
use jname_core::serial::Serial;
use job_text::text::JobText;
use prog_core::units::Units;
use store_core::job_store::JobStore;

/// Whether an operation is under way on the volume, if there is one.
fn is_busy(units: &Units, serial: &Option<Serial>) -> bool
    ensures { result ≡ is_busy units.now serial.now }
{
    match serial {
        None => false,
        Some(serial) => units.is_busy(*serial),
    }
}

/// Whether a request of a step, from 0, waits for its volume.
fn asks_of_busy<T: JobText, S: JobStore>(
    text: &T,
    setting: &Setting<'_>,
    store: &S,
    own: &Own,
    step: usize,
    wants: &Move,
) -> bool
    requires reads { T.reads text.now }
    requires step { step < length (T.plan text.now).steps }
    ensures { result ≡ waits_in setting.now (Ask (step_at (T.plan text.now).steps step) wants.now) (S.seen setting.now.job store.now) own.now }
{
    if setting.cancelled || setting.units.is_idle() {
        return false;
    }
    let needed = volume_asked_for(text, store, setting.job, step, wants, own.dds.as_slice());
    is_busy(setting.units, &needed)
}

/// Whether the result of the job's operation is not there yet.
fn has_operation(units: &Units, job: u16) -> bool
    ensures { result ≡ has_operation units.now job }
{
    units.finish(job).is_err()
}

/// Whether an action must wait.
pub(crate) fn must_wait<T: JobText, S: JobStore>(
    text: &T,
    setting: &Setting<'_>,
    store: &S,
    own: &Own,
    task: &Task,
) -> bool
    requires reads { T.reads text.now }
    requires there { IsThere (T.plan text.now).steps task.now }
    ensures { result ≡ waits_in setting.now (action_of (T.plan text.now).steps task.now) (S.seen setting.now.job store.now) own.now }
{
    match task {
        Task::Start { .. } => false,
        Task::Take { .. } => false,
        Task::Ask { n, wants } => asks_of_busy(text, setting, store, own, *n - 1, wants),
        Task::Receive => !setting.cancelled && has_operation(setting.units, setting.job),
        Task::Finish { .. } => false,
        Task::Dispose { .. } => false,
        Task::Left { .. } => false,
    }
}
