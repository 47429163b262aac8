//! The jobs that were kept wait in their queue, in the order of their numbers.
ghost use Rattle.std.specs.Prelude.{◌≡◌, ◌≢◌, ◌≤◌, ◌<◌, ◌++◌, ◌∷◌, [], All, IfOk, OnOk, length, map, true};
ghost use Rattle.cb_meaning.specs.declared.layout.TheConstants.{LAYOUT_2};
ghost use Rattle.machine_meaning.specs.declared.machine.TheConstants.{MOST_JOBS};
ghost use Rattle.plain.specs.Lists.{are_different};
ghost use Rattle.queue_images.specs.Waiting.{AreJctsOf, CanWait, Wait, greatest, queued_in};

use crate::image::WaitingJob;
use crate::numbers::NUMBERS;
use cb_queue::store::RecordStore;
use cb_records::jct::{CLASS, PRIORITY};
use chain_store::store::ChainStore;
use queue_core::queue::Queued;
use std::alloc::{AllocError, Global};

/// The JCT of each job by its number, 0 where there is no such job.
fn jcts_of(alloc: Global, jobs: &[WaitingJob]) -> Result<Vec<u32>, AllocError>
    requires numbers { All (λ w. w.job ≤ MOST_JOBS) jobs.now }
    requires once { are_different (map (λ w. w.job) jobs.now) ≡ true }
    ensures size { IfOk result (λ jcts. MOST_JOBS < length jcts.items) }
    ensures jcts { IfOk result (λ jcts. AreJctsOf jcts.items jobs.now) }
{
    let mut jcts = vec![in alloc; 0u32; NUMBERS]?;
    for w in jobs {
        jcts[usize::from(w.job)] = w.jct;
    }
    Ok(jcts)
}

/// A job waits, with the class and the priority of its JCT.
fn enter(store: &mut ChainStore, w: WaitingJob) -> Result<(), AllocError>
    requires layout { store.old.queue.layout ≡ LAYOUT_2 }
    requires stands { CanWait store.old.queue w }
    requires later { All (λ x. x.job < w.job) store.old.queue.waiting }
    ensures { OnOk result (store.new.queue ≡ record store.old.queue { waiting = store.old.queue.waiting ++ queued_in store.old.queue w ∷ [] }) }
{
    let Some(jct) = store.get(w.jct) else {
        unreachable!();
    };
    let queued = Queued {
        job: w.job,
        jct: w.jct,
        class: jct.byte(CLASS),
        priority: jct.byte(PRIORITY),
    };
    store.enter(queued)
}

/// Lets jobs wait in a queue in which nobody does. Tells their numbers in their order.
pub(crate) fn let_wait(
    alloc: Global,
    store: &mut ChainStore,
    jobs: &[WaitingJob],
) -> Result<Vec<u16>, AllocError>
    requires layout { store.old.queue.layout ≡ LAYOUT_2 }
    requires nobody { store.old.queue.waiting ≡ [] }
    requires numbers { All (λ w. w.job ≤ MOST_JOBS) jobs.now }
    requires once { are_different (map (λ w. w.job) jobs.now) ≡ true }
    requires stand { All (CanWait store.old.queue) jobs.now }
    ensures wait { IfOk result (λ numbers. Wait store.new.queue jobs.now numbers.items) }
    ensures rest { OnOk result (store.new.queue ≡ record store.old.queue { waiting = store.new.queue.waiting }) }
{
    let jcts = jcts_of(alloc, jobs)?;
    let mut numbers = Vec::with_capacity(alloc, jobs.len())?;
    for job in 1..10_000u16 {
        let jct = jcts[usize::from(job)];
        if jct == 0 {
            continue;
        }
        enter(store, WaitingJob { job, jct })?;
        numbers.push(job)?;
    }
    let _sound = store.layout();
    Ok(numbers)
}

/// The greatest number of a job, 0 where there is none.
pub(crate) fn greatest(jobs: &[WaitingJob]) -> u16
    ensures { result ≡ greatest (map (λ w. w.job) jobs.now) }
{
    let mut n = jobs.len();
    let mut last = 0;
    while n > 0 {
        let job = jobs[n - 1].job;
        if job > last {
            last = job;
        }
        n -= 1;
    }
    last
}
