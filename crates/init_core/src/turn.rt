//! A turn of an admitted job: its actions up to the first that writes, or its end.
ghost use Rattle.std.specs.Prelude.{◌≡◌, ◌≢◌, All, false, IfErr, IfOk, IfSome, None, OnErr, OnOk, if◌then◌else◌};
ghost use Rattle.jcl_plan.specs.declared.entry.JobLine.TheVariants as line;
ghost use Rattle.prog_core.specs.Operations.{IsRoomFor, is_busy};
ghost use Rattle.world_meaning.specs.Holdings.{cancels_without};
ghost use Rattle.disp_core.specs.Courses.{fixed_by};
ghost use Rattle.admit_core.specs.Admissions.{fixed_for, given_to, named_of};
ghost use Rattle.turn_core.specs.Turning.{operations_by};
ghost use Rattle.init_core.specs.Going.{ActsInPlace};
ghost use Rattle.init_core.specs.Providing.{IsProvidedUnder};
ghost use Rattle.init_core.specs.Running.{IsAt, IsGood, config_of};
ghost use Rattle.init_core.specs.Turning.{IsEnded};
ghost use Rattle.init_core.specs.declared.running.Progress.TheVariants as progress;
ghost use Rattle.init_core.specs.declared.running.Stage.TheVariants as stage;

use crate::ending::release_admitted;
use crate::running::{Profile, Progress, Running, Stage, over};
use admit_core::admission::AdmittedJob;
use cb_queue::store::RecordStore;
use disp_core::course::Given;
use grant_laws::granted_turns;
use jcl_plan::entry::JobLine;
use machine_core::parts::Parts;
use prog_core::units::{Units, operations_are_apart};
use queued_job::cancels::Cancels;
use shared_core::laws::{kept_is_spent, sets_of_others_stay, taking_follows, tracks_are_conserved};
use shared_core::sums::volumes_add_up;
use std::alloc::{AllocError, Global};
use turn_core::laws::{acts_advance, few_lines, waits_advance};
use turn_core::turn::turn;
use turn_core::walk::{Acted, Setting, Turned, Walk};

/// What is fixed for an admitted job.
fn given<'a>(profile: &Profile<'a>, admitted: &'a AdmittedJob) -> Given<'a>
    ensures { fixed_by result ≡ fixed_for profile.now.volumes.now (named_of admitted.now).plan (given_to admitted.now) }
{
    let provision = admitted.provision();
    Given {
        job_tests: admitted.plan().tests.as_slice(),
        volumes: profile.volumes,
        places: &provision.places,
        meanings: &provision.meanings,
        date: provision.date,
    }
}

/// What an action that wrote leaves of the operations and the cancels.
fn enter_acted(units: &mut Units, cancels: &mut Cancels, job: u16, acted: &Acted)
    requires room { IfSome acted.now.starts (IsRoomFor units.old) }
    requires idle { is_busy units.old acted.now.starts ≡ false }
    ensures units { units.new ≡ operations_by units.old job acted.now.starts acted.now.cancelled }
    ensures cancels { cancels.new ≡ if acted.now.cancelled then cancels_without cancels.old job else cancels.old }
{
    match acted.starts {
        Some(serial) => {
            if units.start(serial, job).is_err() {
                unreachable!();
            }
        }
        None => {
            if acted.cancelled {
                units.abandon(job);
            }
        }
    }
    if acted.cancelled {
        cancels.remove(job);
    }
}

fn running(job: u16, walk: Walk, admitted: AdmittedJob) -> Running
    ensures { result ≡ record { job = job; walk = walk; stage = stage.Admitted admitted } }
{
    Running {
        job,
        walk,
        stage: Stage::Admitted(admitted),
    }
}

/// END: the writers have what the job wrote, and what it held is given back. Where memory is missing the job is given back as it was, and nothing has changed.
#[inline(never)]
pub(crate) fn end<Q: RecordStore>(
    parts: &mut Parts<Q>,
    job: u16,
    mut walk: Walk,
    admitted: AdmittedJob,
) -> Result<Progress, Running>
    requires some { job ≢ 0 }
    requires its_own { (named_of admitted).held ≡ job }
    requires unqueued { All (λ x. x.job ≢ job) (Q.queue parts.old.queue).waiting }
    ensures over { IfOk result (λ came. came ≡ progress.Over None line.End) }
    ensures ok { OnOk result (IsEnded Q.queue job walk (named_of admitted).plan parts.old parts.new) }
    ensures err { IfErr result (λ r. r ≡ record { job = job; walk = walk; stage = stage.Admitted admitted }) }
    ensures same { OnErr result (parts.new ≡ parts.old) }
{
    let class = admitted.plan().message_class;
    match parts.spool.enter(
        job,
        class,
        &mut walk.course.lines,
        JobLine::End,
        &mut walk.course.own.outputs,
    ) {
        Ok(()) => {
            release_admitted(parts, job, admitted);
            Ok(over(walk, None, JobLine::End))
        }
        Err(_) => Err(running(job, walk, admitted)),
    }
}

/// A turn of an admitted job in its place: where the lines begin that it wrote, or none where its END is due. Then, and on an `Err`, nothing has changed.
pub(crate) fn act<Q: RecordStore>(
    alloc: Global,
    parts: &mut Parts<Q>,
    profile: &Profile<'_>,
    job: u16,
    walk: &mut Walk,
    admitted: &AdmittedJob,
) -> Result<Option<usize>, AllocError>
    requires some { job ≢ 0 }
    requires at { IsAt (config_of profile.now (Q.queue parts.old.queue).layout) parts.old.names job walk.old (stage.Admitted admitted.now) }
    requires good { IsGood Q.queue (config_of profile.now (Q.queue parts.old.queue).layout) parts.old }
    requires provided { IsProvidedUnder Q.queue profile.now parts.old (record { job = job; walk = walk.old; stage = stage.Admitted admitted.now }) }
    ensures ok { IfOk result (ActsInPlace Q.queue profile.now parts.old job admitted.now walk.old parts.new walk.new) }
    ensures err { OnErr result ((parts.new ≡ parts.old) × (walk.new ≡ walk.old)) }
{
    waits_advance();
    acts_advance();
    few_lines();
    granted_turns();
    sets_of_others_stay();
    kept_is_spent();
    tracks_are_conserved();
    taking_follows();
    operations_are_apart(&parts.units);
    volumes_add_up(&parts.store);
    let from = walk.course.lines.len();
    let cancelled = parts.cancels.has(job);
    let setting = Setting {
        programs: profile.programs,
        units: &parts.units,
        job: admitted.number(),
        given: given(profile, admitted),
        cancelled,
    };
    match turn(alloc, admitted.plan(), &setting, &mut parts.store, walk) {
        Ok(Turned::Waits) => Ok(Some(from)),
        Ok(Turned::Acts(acted)) => {
            volumes_add_up(&parts.store);
            enter_acted(&mut parts.units, &mut parts.cancels, job, &acted);
            Ok(Some(from))
        }
        Ok(Turned::Ends) => Ok(None),
        Err(_) => Err(AllocError),
    }
}
