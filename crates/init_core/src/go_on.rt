//! A job's turn.
ghost use Rattle.std.specs.Prelude.{◌≡◌, ◌≢◌, All, IfErr, IfOk, OnErr};
ghost use Rattle.init_core.specs.Going.{MayLeave, WentInPlace, WentUnder};
ghost use Rattle.init_core.specs.Providing.{IsProvidedUnder};
ghost use Rattle.init_core.specs.Running.{IsGood, IsReady, config_of};

use crate::admission::admit_job;
use crate::names::want_in_place;
use crate::read::read;
use crate::running::{Profile, Progress, Running, Stage};
use crate::turn::{act, end};
use cb_queue::store::RecordStore;
use machine_core::parts::Parts;
use std::alloc::{AllocError, Global};
use turn_core::laws::ends_advance;

/// A turn of a job by which it may leave its place: it is read, is to be admitted, or its END is due. It leaves the job, where it is not over, with what it
/// was answered or the lines that it wrote. Where memory is missing the job is given back as it was, and the parts are as they were.
pub fn go_on<Q: RecordStore>(
    alloc: Global,
    parts: &mut Parts<Q>,
    profile: &Profile<'_>,
    running: Running,
) -> Result<Progress, Running>
    requires good { IsGood Q.queue (config_of profile.now (Q.queue parts.old.queue).layout) parts.old }
    requires ready { IsReady (config_of profile.now (Q.queue parts.old.queue).layout) parts.old.names running }
    requires provided { IsProvidedUnder Q.queue profile.now parts.old running }
    requires leaves { MayLeave profile.now parts.old running }
    requires unqueued { All (λ x. x.job ≢ running.job) (Q.queue parts.old.queue).waiting }
    ensures ok { IfOk result (WentUnder Q.queue profile.now parts.old running parts.new) }
    ensures err { IfErr result (λ r. r ≡ running) }
    ensures same { OnErr result (parts.new ≡ parts.old) }
{
    ends_advance();
    let Running { job, walk, stage } = running;
    match stage {
        Stage::Selected { first } => read(alloc, parts, profile, job, walk, first),
        Stage::Wanting { .. } => unreachable!(),
        Stage::Named(named) => admit_job(alloc, parts, profile, job, walk, named),
        Stage::Admitted(admitted) => end(parts, job, walk, admitted),
    }
}

/// A turn of a job in its place, where it wants its names, or is admitted and not over by it: where the lines begin that it wrote. With none it may leave its
/// place by this turn, and is still to go on; then, and on an `Err`, nothing has changed.
pub fn go_on_in_place<Q: RecordStore>(
    alloc: Global,
    parts: &mut Parts<Q>,
    profile: &Profile<'_>,
    running: &mut Running,
) -> Result<Option<usize>, AllocError>
    requires good { IsGood Q.queue (config_of profile.now (Q.queue parts.old.queue).layout) parts.old }
    requires ready { IsReady (config_of profile.now (Q.queue parts.old.queue).layout) parts.old.names running.old }
    requires provided { IsProvidedUnder Q.queue profile.now parts.old running.old }
    ensures ok { IfOk result (WentInPlace Q.queue profile.now parts.old running.old parts.new running.new) }
    ensures err { OnErr result ((parts.new ≡ parts.old) × (running.new ≡ running.old)) }
{
    let Running { job, walk, stage } = running;
    match stage {
        Stage::Admitted(admitted) => act(alloc, parts, profile, *job, walk, admitted),
        Stage::Wanting { .. } => match want_in_place(parts, *job, walk, stage) {
            Ok(from) => Ok(Some(from)),
            Err(_) => Err(AllocError),
        },
        Stage::Selected { .. } => Ok(None),
        Stage::Named(_) => Ok(None),
    }
}
