//! A queue of the first layout is migrated.
ghost use Rattle.std.specs.Prelude.{◌≡◌, [], ℕ, List, IfErr, IfOk, OnOk, length, map, true};
ghost use Rattle.cb_meaning.specs.declared.layout.TheConstants.{LAYOUT_2};
ghost use Rattle.cb_queue.specs.RecordQueues.{empty_queue};
ghost use Rattle.queue_images.specs.Carrying.{AreCarried, AreSorted, AreWaiting, IsNoted, IsRefused, IsTakenOver};
ghost use Rattle.queue_images.specs.declared.image.TheConstants.{IMAGE_BYTES};
ghost use Rattle.queue_images.specs.Images.{are_job_numbers};
ghost use Rattle.queue_images.specs.Loading.{IsLoaded};

use crate::carry::carry_job;
use crate::image::{DroppedJob, IMAGE_BYTES, WaitingJob};
use crate::load::load;
use crate::numbers::are_job_numbers;
use crate::waiting::{greatest, let_wait};
use cb_chain::laws::the_layouts_hold_jobs;
use cb_meaning::layout::{LAYOUT_1, LAYOUT_2};
use cb_queue::store::RecordStore;
use chain_store::store::ChainStore;
use std::alloc::{AllocError, Global};
use world_laws::{denotes_still, layouts_have_own_links};

/// Why a queue is not carried over.
#[derive(Clone, Copy)]
pub enum MigrateFault {
    /// M1: an image has 720,896 bytes.
    Size,
    /// M2: the number of a job is 1 to 9,999, and each is given once.
    Numbers,
    Memory,
}

/// A queue of the second layout, in which the jobs that were kept wait in the order of their numbers. Its fields are handed on together.
pub struct Migrated {
    pub store: ChainStore,
    /// Those that were kept, in the order in which they were given.
    pub kept: Vec<WaitingJob>,
    /// Those that were dropped, in that order.
    pub dropped: Vec<DroppedJob>,
    /// The numbers of those that wait.
    pub waiting: Vec<u16>,
    /// The greatest number that was given, 0 where none was. The numbers of the jobs that are read next go on behind it.
    pub last: u16,
}

/// What is told of the jobs so far.
#[derive(Drop)]
struct Sorted {
    kept: Vec<WaitingJob>,
    dropped: Vec<DroppedJob>,
}

/// A store with the records of an image.
fn loaded(alloc: Global, image: &[u8]) -> Result<ChainStore, AllocError>
    requires { length image.now ≡ IMAGE_BYTES }
    ensures { IfOk result (λ store. IsLoaded image.now store.queue) }
{
    the_layouts_hold_jobs();
    let mut store = ChainStore::new(alloc, LAYOUT_1)?;
    store.make_room(LAYOUT_1.most_records)?;
    load(&mut store, image);
    Ok(store)
}

/// Notes what is told of a job: its first record, or its fault.
fn note(told: Result<u32, u8>, job: u16, sorted: &mut Sorted) -> Result<(), AllocError>
    ensures { OnOk result (IsNoted job told sorted.old.kept.items sorted.new.kept.items sorted.old.dropped.items sorted.new.dropped.items) }
{
    match told {
        Ok(jct) => sorted.kept.push(WaitingJob { job, jct })?,
        Err(fault) => sorted.dropped.push(DroppedJob { job, fault })?,
    }
    Ok(())
}

/// Carries jobs over into a queue of which no record is in use, as far as they can be read.
fn carry_jobs(
    alloc: Global,
    old: &ChainStore,
    new: &mut ChainStore,
    sorted: &mut Sorted,
    jobs: &[WaitingJob],
    units: u16,
) -> Result<(), AllocError>
    requires loaded { (image : List ℕ) × IsLoaded image old.now.queue }
    requires empty { new.old.queue ≡ empty_queue LAYOUT_2 }
    requires nothing { (sorted.old.kept.items ≡ []) × (sorted.old.dropped.items ≡ []) }
    requires numbers { are_job_numbers (map (λ w. w.job) jobs.now) ≡ true }
    ensures carried { (image : List ℕ) → IsLoaded image old.now.queue →
        OnOk result (AreSorted image units jobs.now new.new.queue sorted.new) }
    ensures nobody { OnOk result (new.new.queue.waiting ≡ []) }
{
    the_layouts_hold_jobs();
    layouts_have_own_links();
    denotes_still();
    for w in jobs {
        let told = carry_job(alloc, old, new, units, *w)?;
        note(told, w.job, sorted)?;
    }
    Ok(())
}

/// Carries the jobs of an image over, as far as they can be read, and lets them wait.
fn carried(
    alloc: Global,
    image: &[u8],
    jobs: &[WaitingJob],
    units: u16,
) -> Result<Migrated, AllocError>
    requires size { length image.now ≡ IMAGE_BYTES }
    requires numbers { are_job_numbers (map (λ w. w.job) jobs.now) ≡ true }
    ensures carried { IfOk result (λ m. AreCarried image.now units jobs.now m.store.queue m.kept.items m.dropped.items) }
    ensures waiting { IfOk result (λ m. AreWaiting jobs.now m.store.queue m.kept.items m.waiting.items m.last) }
{
    let old = loaded(alloc, image)?;
    let mut store = ChainStore::new(alloc, LAYOUT_2)?;
    let mut sorted = Sorted {
        kept: Vec::new(alloc),
        dropped: Vec::new(alloc),
    };
    carry_jobs(alloc, &old, &mut store, &mut sorted, jobs, units)?;
    let waiting = let_wait(alloc, &mut store, sorted.kept.as_slice())?;
    let Sorted { kept, dropped } = sorted;
    Ok(Migrated {
        store,
        kept,
        dropped,
        waiting,
        last: greatest(jobs),
    })
}

/// Carries a queue over whose records are of the first layout: an image of all of its records, the jobs that wait in it, and how many lists of volumes there
/// are. Each job that its records denote is written anew in the second layout, in the order given, denotes what it denoted, and waits with the class and the
/// priority of its JCT; each other is dropped with the number of its first fault.
pub fn migrate_queue(
    alloc: Global,
    image: &[u8],
    jobs: &[WaitingJob],
    units: u16,
) -> Result<Migrated, MigrateFault>
    ensures carried { IfOk result (λ m. AreCarried image.now units jobs.now m.store.queue m.kept.items m.dropped.items) }
    ensures waiting { IfOk result (λ m. AreWaiting jobs.now m.store.queue m.kept.items m.waiting.items m.last) }
    ensures taken { IfOk result (λ m. IsTakenOver image.now jobs.now) }
    ensures refused { IfErr result (IsRefused image.now jobs.now) }
{
    if image.len() != IMAGE_BYTES {
        return Err(MigrateFault::Size);
    }
    if !are_job_numbers(jobs) {
        return Err(MigrateFault::Numbers);
    }
    match carried(alloc, image, jobs, units) {
        Ok(migrated) => Ok(migrated),
        Err(AllocError) => Err(MigrateFault::Memory),
    }
}
