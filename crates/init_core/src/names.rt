//! A job's names are held, all of them or none: NAMES, WAIT NAMES.
ghost use Rattle.std.specs.Prelude.{◌≡◌, ◌≢◌, IfOk, List, OnErr};
ghost use Rattle.enq_core.specs.Holds.{AreWants, HoldsNone};
ghost use Rattle.world_meaning.specs.Holdings.{wants_of};
ghost use Rattle.init_core.specs.Going.{WentOnInPlace};
ghost use Rattle.init_core.specs.Naming.{WentByWish, Wishes, stage_behind};
ghost use Rattle.init_core.specs.declared.running.Progress.TheVariants as progress;
ghost use Rattle.init_core.specs.declared.running.Stage.TheVariants as stage;

use crate::running::{Progress, Running, Stage};
use admit_core::admission::NamedJob;
use cb_queue::store::RecordStore;
use enq_core::table::{EnqTable, Held, HoldFault, Want};
use jcl_plan::entry::JobLine;
use jcl_plan::plan::JobPlan;
use machine_core::parts::Parts;
use plain::listed::Listed;
use queued_job::laws::wants_are_in_order;
use std::alloc::AllocError;
use std::mem;
use turn_core::walk::Walk;

/// Holds the names of a job that holds none, or none of them, and writes what came of it behind its listing. An `Err` changes nothing.
#[tactic(auto, using(crate::proofs::Wanting::released_again))]
pub(crate) fn hold(
    names: &mut EnqTable,
    job: u16,
    listing: &mut Listed<JobLine>,
    wants: &[Want],
) -> Result<Option<Held>, AllocError>
    requires none { HoldsNone names.old job }
    requires order { AreWants wants.now }
    ensures ok { IfOk result (λ held. Wishes names.old job wants.now listing.old held names.new listing.new) }
    ensures err { OnErr result ((names.new ≡ names.old) × (listing.new ≡ listing.old)) }
{
    match names.hold_all(job, wants) {
        Ok(held) => match listing.push(JobLine::Names(wants.len())) {
            Ok(()) => Ok(Some(held)),
            Err(_) => {
                names.release(held);
                Err(AllocError)
            }
        },
        Err(HoldFault::Blocked(blocked)) => {
            listing.push(JobLine::WaitNames {
                holder: blocked.job,
                name: blocked.name,
            })?;
            Ok(None)
        }
        Err(HoldFault::Memory) => Err(AllocError),
    }
}

/// What comes of the wish of a job whose records are read: its names are held, or it waits for them. An `Err` changes nothing.
pub(crate) fn wish<Q: RecordStore>(
    parts: &mut Parts<Q>,
    job: u16,
    walk: &mut Walk,
    wants: &[Want],
) -> Result<Option<Held>, AllocError>
    requires some { job ≢ 0 }
    requires none { HoldsNone parts.old.names job }
    requires order { AreWants wants.now }
    ensures ok { IfOk result (WentByWish Q.queue job wants.now parts.old walk.old parts.new walk.new) }
    ensures err { OnErr result ((parts.new ≡ parts.old) × (walk.new ≡ walk.old)) }
{
    let held = hold(&mut parts.names, job, &mut walk.course.lines, wants)?;
    Ok(held)
}

/// A job that goes on behind its wish.
pub(crate) fn going_on(
    job: u16,
    walk: Walk,
    plan: JobPlan,
    wants: Listed<Want>,
    held: Option<Held>,
    from: usize,
) -> Progress
    ensures { result ≡ progress.GoesOn (record { job = job; walk = walk; stage = stage_behind plan wants held }) from }
{
    let stage = match held {
        Some(held) => Stage::Named(NamedJob::new(plan, held)),
        None => Stage::Wanting { plan, wants },
    };
    Progress::GoesOn {
        job: Running { job, walk, stage },
        from,
    }
}

/// A job that waits for its names has them now, or waits on.
fn go_behind(waits: &mut Stage, held: Option<Held>)
    requires { (plan : JobPlan) × (wants : List Want) × (waits.old ≡ stage.Wanting plan wants) }
    ensures { (plan : JobPlan) (wants : List Want) → waits.old ≡ stage.Wanting plan wants → waits.new ≡ stage_behind plan wants held }
{
    let Some(held) = held else {
        return;
    };
    match mem::replace(waits, Stage::Selected { first: 0 }) {
        Stage::Wanting { plan, wants: _ } => {
            match mem::replace(waits, Stage::Named(NamedJob::new(plan, held))) {
                Stage::Selected { first } => {
                    let _none = first;
                }
                _ => unreachable!(),
            }
        }
        _ => unreachable!(),
    }
}

/// A turn of a job whose records are read, in its place: where the lines begin that it wrote. An `Err` changes nothing.
pub(crate) fn want_in_place<Q: RecordStore>(
    parts: &mut Parts<Q>,
    job: u16,
    walk: &mut Walk,
    waits: &mut Stage,
) -> Result<usize, AllocError>
    requires some { job ≢ 0 }
    requires none { HoldsNone parts.old.names job }
    requires waits { (plan : JobPlan) × (waits.old ≡ stage.Wanting plan (wants_of plan)) }
    ensures ok { IfOk result (WentOnInPlace Q.queue job parts.old walk.old waits.old parts.new walk.new waits.new) }
    ensures err { OnErr result ((parts.new ≡ parts.old) × (walk.new ≡ walk.old) × (waits.new ≡ waits.old)) }
{
    wants_are_in_order();
    let from = walk.course.lines.len();
    let Stage::Wanting { wants, .. } = &*waits else {
        unreachable!();
    };
    let held = wish(parts, job, walk, wants.as_slice())?;
    go_behind(waits, held);
    Ok(from)
}
