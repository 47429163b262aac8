//! The first fault of a job's records.
ghost use Rattle.std.specs.Prelude.{◌≡◌, ◌<◌, ◌*◌, [], IfOk, length};
ghost use Rattle.cb_meaning.specs.Walks.{first_fault};
ghost use Rattle.cb_queue.specs.RecordQueues.{last_in_use, shown};
ghost use Rattle.cb_walk.specs.Jobs.{Tells};
ghost use Rattle.cb_walk.specs.Marks.{AreMarked};

use crate::arrival::arrive;
use crate::job::jct_fault;
use crate::marks::no_marks;
use crate::walk_steps::walk_steps;
use cb_queue::store::RecordStore;
use cb_records::rec::Rec;
use std::alloc::{AllocError, Global};

/// Walks over the records of a job, of which none is marked.
fn walk_job<S: RecordStore>(
    alloc: Global,
    store: &S,
    marks: &mut [u64],
    units: u16,
    job: u16,
    n: u32,
) -> Result<Option<u8>, AllocError>
    requires marks { last_in_use (S.queue store.now).records < 64 * length marks.old }
    requires none { AreMarked marks.old [] }
    ensures { IfOk result (Tells (S.queue store.now) units job n) }
{
    let layout = store.layout();
    let mut r = Rec::zeroed();
    match arrive(store, marks, job, 1, n, &mut r) {
        Ok(()) => {}
        Err(fault) => return Ok(Some(fault)),
    }
    match jct_fault(layout, &r) {
        Some(fault) => return Ok(Some(fault)),
        None => {}
    }
    let first = r.number(layout.first_step);
    if first == 0 {
        return Ok(Some(5));
    }
    let most = u64::from(layout.most_records) + 1;
    let stated = r.number(layout.steps);
    let told = walk_steps(alloc, store, marks, units, job, most, stated, first)?;
    Ok(told.err())
}

/// The number of the fault that strict reading tells first of the records of a job, or none. The job's JCT is record `n`, and as many lists of
/// volumes are configured as `units`. It reads each record once, and takes memory for a bit for each record up to the last in use and a mark for each DD of the job.
pub fn first_fault<S: RecordStore>(
    alloc: Global,
    store: &S,
    units: u16,
    job: u16,
    n: u32,
) -> Result<Option<u8>, AllocError>
    ensures { IfOk result (λ fault. fault ≡ first_fault (S.queue store.now).layout units (shown (S.queue store.now)) job n) }
{
    let mut marks = no_marks(alloc, store.last_in_use())?;
    walk_job(alloc, store, marks.as_mut_slice(), units, job, n)
}
