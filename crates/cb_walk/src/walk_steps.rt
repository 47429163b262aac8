//! The walk over the steps of a job.
ghost use Rattle.std.specs.Prelude.{◌≡◌, ◌<◌, ◌*◌, ◌≢◌, ◌≤◌, [], IfOk, length};
ghost use Rattle.cb_queue.specs.RecordQueues.{last_in_use};
ghost use Rattle.cb_walk.specs.Follows.{Ends};
ghost use Rattle.cb_walk.specs.Steps.{PassesStep, steps_from};

use crate::arrival::arrive;
use crate::step::sct_fault;
use crate::walk_dds::walk_dds;
use cb_queue::store::RecordStore;
use cb_records::rec::Rec;
use plain::listed::Listed;
use std::alloc::{AllocError, Global};

/// Passes one step, behind these. Tells which of its DDs are sets, and the number of the next SCT, or a fault.
fn pass_step<S: RecordStore>(
    alloc: Global,
    store: &S,
    marks: &mut [u64],
    units: u16,
    job: u16,
    steps: &[Listed<bool>],
    n: u32,
) -> Result<Result<(Listed<bool>, u32), u8>, AllocError>
    requires marks { last_in_use (S.queue store.now).records < 64 * length marks.old }
    requires few { length steps.now ≤ (S.queue store.now).layout.most_steps }
    requires some { n ≢ 0 }
    ensures { IfOk result (PassesStep (S.queue store.now) units job steps.now n marks.old marks.new) }
{
    let layout = store.layout();
    let mut r = Rec::zeroed();
    match arrive(store, marks, job, 2, n, &mut r) {
        Ok(()) => {}
        Err(fault) => return Ok(Err(fault)),
    }
    if steps.len() == usize::from(layout.most_steps) {
        return Ok(Err(10));
    }
    match sct_fault(layout, steps.len() as u16 + 1, &r) {
        Some(fault) => return Ok(Err(fault)),
        None => {}
    }
    let most = u64::from(layout.most_records) + 1;
    let stated = r.number(layout.dds);
    let first = r.number(layout.first_dd);
    match walk_dds(alloc, store, marks, units, job, most, stated, steps, first)? {
        Ok(dds) => Ok(Ok((dds, r.number(layout.next_step)))),
        Err(fault) => Ok(Err(fault)),
    }
}

/// Walks over the steps of a job, so many as it states, and over so many less one at most.
pub(crate) fn walk_steps<S: RecordStore>(
    alloc: Global,
    store: &S,
    marks: &mut [u64],
    units: u16,
    job: u16,
    fuel: u64,
    stated: u32,
    first: u32,
) -> Result<Result<(), u8>, AllocError>
    requires { last_in_use (S.queue store.now).records < 64 * length marks.old }
    ensures { IfOk result (Ends marks.old marks.new (steps_from (S.queue store.now) units job fuel stated [] first)) }
{
    let mut n = first;
    let mut steps = Listed::empty(alloc);
    let mut left = fuel;
    while left > 0 {
        if n == 0 {
            if steps.len() == stated as usize {
                return Ok(Ok(()));
            }
            return Ok(Err(5));
        }
        match pass_step(alloc, store, marks, units, job, steps.as_slice(), n)? {
            Ok((dds, next)) => {
                steps.push(dds)?;
                n = next;
            }
            Err(fault) => return Ok(Err(fault)),
        }
        left -= 1;
    }
    Ok(Err(4))
}
