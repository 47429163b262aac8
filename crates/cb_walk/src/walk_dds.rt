//! The walk over the DDs of a step.
ghost use Rattle.std.specs.Prelude.{◌≡◌, ◌*◌, ◌≢◌, ◌<◌, [], IfOk, length};
ghost use Rattle.cb_queue.specs.RecordQueues.{last_in_use};
ghost use Rattle.cb_walk.specs.Dds.{EndsDds, PassesDd, dds_from};

use crate::arrival::arrive;
use crate::dd::siot_fault;
use crate::walk_below::walk_below;
use cb_queue::store::RecordStore;
use cb_records::rec::Rec;
use cb_records::siot::is_set;
use jcl_plan::plan::MOST_DDS;
use plain::listed::Listed;
use std::alloc::{AllocError, Global};

/// Passes one DD, behind these of its step and behind these steps. Tells whether it is a set, and the number of the next SIOT, or a fault.
fn pass_dd<S: RecordStore>(
    store: &S,
    marks: &mut [u64],
    units: u16,
    job: u16,
    left: u64,
    steps: &[Listed<bool>],
    dds: &[bool],
    n: u32,
) -> Result<(bool, u32), u8>
    requires marks { last_in_use (S.queue store.now).records < 64 * length marks.old }
    requires some { n ≢ 0 }
    requires left { 0 < left }
    ensures { PassesDd (S.queue store.now) units job left steps.now dds.now n marks.old marks.new result }
{
    let layout = store.layout();
    let mut r = Rec::zeroed();
    match arrive(store, marks, job, 3, n, &mut r) {
        Ok(()) => {}
        Err(fault) => return Err(fault),
    }
    if dds.len() == MOST_DDS {
        return Err(10);
    }
    match siot_fault(layout, units, steps, dds, &r) {
        Some(fault) => return Err(fault),
        None => {}
    }
    match walk_below(store, marks, job, left, steps, dds, &r) {
        Ok(()) => Ok((is_set(&r), r.number(layout.next_dd))),
        Err(fault) => Err(fault),
    }
}

/// Walks over the DDs of the step behind these, so many as it states, and over so many less one at most. Tells which of them are sets.
pub(crate) fn walk_dds<S: RecordStore>(
    alloc: Global,
    store: &S,
    marks: &mut [u64],
    units: u16,
    job: u16,
    fuel: u64,
    stated: u32,
    steps: &[Listed<bool>],
    first: u32,
) -> Result<Result<Listed<bool>, u8>, AllocError>
    requires { last_in_use (S.queue store.now).records < 64 * length marks.old }
    ensures { IfOk result (EndsDds marks.old marks.new (dds_from (S.queue store.now) units job fuel stated steps.now [] first)) }
{
    let mut n = first;
    let mut dds = Listed::empty(alloc);
    let mut left = fuel;
    while left > 0 {
        if n == 0 {
            return if dds.len() == stated as usize {
                Ok(Ok(dds))
            } else {
                Ok(Err(5))
            };
        }
        match pass_dd(store, marks, units, job, left, steps, dds.as_slice(), n) {
            Ok((set, next)) => {
                dds.push(set)?;
                n = next;
            }
            Err(fault) => return Ok(Err(fault)),
        }
        left -= 1;
    }
    Ok(Err(4))
}
