//! Images of queues, and how they are carried over.
use crate::store::tell_record_of;
use cb_queue::store::RecordStore;
use chain_store::store::ChainStore;
use queue_images::image::{DroppedJob, WaitingJob};
use queue_images::migrate::{MigrateFault, Migrated, migrate_queue};
use row_table::desk::Line;
use row_table::told::Told;
use std::alloc::Global;

/// What is done with an image.
#[derive(Clone, Copy)]
pub enum ImageVerb {
    Size,
    Bytes,
    Job,
    Migrate,
}

/// An image, and the jobs that wait in it.
#[derive(Drop)]
pub struct Image {
    pub bytes: Vec<u8>,
    pub jobs: Vec<WaitingJob>,
}

/// An image without a byte, and nobody waits.
pub fn no_image(alloc: Global) -> Image {
    Image {
        bytes: Vec::new(alloc),
        jobs: Vec::new(alloc),
    }
}

/// An image of so many zeros, in place of the one so far.
fn resize(alloc: Global, image: &mut Image, count: u32, told: &mut Told) {
    if let Some(zeros) = told.got(vec![in alloc; 0u8; count as usize]) {
        image.bytes = zeros;
    }
}

/// Writes bytes of an image's record from a place on.
fn write_bytes(image: &mut Image, n: u32, at: u8, bytes: &[u8], told: &mut Told) {
    let from = (n.saturating_sub(1) as usize)
        .saturating_mul(176)
        .saturating_add(usize::from(at));
    let size = image.bytes.len();
    if from > size || bytes.len() > size - from {
        return told.not_allowed();
    }
    image.bytes[from..from + bytes.len()].copy_from_slice(bytes);
}

/// The jobs that are kept, and where their JCTs are.
fn tell_kept(kept: &[WaitingJob], told: &mut Told) {
    for w in kept {
        told.numbered(b"KEPT ", u64::from(w.job));
        told.numbered_line(b" ", u64::from(w.jct));
    }
}

/// The jobs that are dropped, and why.
fn tell_dropped(dropped: &[DroppedJob], told: &mut Told) {
    for d in dropped {
        told.numbered(b"DROPPED ", u64::from(d.job));
        told.numbered_line(b" B", u64::from(d.fault));
    }
}

/// The records that are in use, which were taken one after the other.
fn tell_records(store: &ChainStore, told: &mut Told) {
    let taken = store
        .layout()
        .most_records
        .saturating_sub(store.free_count());
    for n in 0..taken {
        told.numbered_line(b"RECORD ", u64::from(n) + 1);
        tell_record_of(store, n + 1, told);
    }
}

/// The jobs that wait, in their order, and the greatest number that was given.
fn tell_waiting(waiting: &[u16], last: u16, told: &mut Told) {
    told.word(b"WAITING");
    for job in waiting {
        told.numbered(b" ", u64::from(*job));
    }
    told.numbered_line(b" OF ", u64::from(last));
}

fn tell_migrated(migrated: Migrated, told: &mut Told) {
    let Migrated {
        store,
        kept,
        dropped,
        waiting,
        last,
    } = migrated;
    tell_waiting(waiting.as_slice(), last, told);
    tell_kept(kept.as_slice(), told);
    tell_dropped(dropped.as_slice(), told);
    tell_records(&store, told);
}

/// Carries the image over, with so many lists of volumes.
fn migrate(alloc: Global, image: &Image, units: u16, told: &mut Told) {
    match migrate_queue(alloc, image.bytes.as_slice(), image.jobs.as_slice(), units) {
        Ok(migrated) => tell_migrated(migrated, told),
        Err(MigrateFault::Size) => told.line(b"REFUSED M1"),
        Err(MigrateFault::Numbers) => told.line(b"REFUSED M2"),
        Err(MigrateFault::Memory) => told.want(),
    }
}

/// Does a command about an image.
pub fn on_image(alloc: Global, image: &mut Image, verb: ImageVerb, line: &mut Line<'_>) {
    match verb {
        ImageVerb::Size => resize(alloc, image, line.words.number(), &mut line.told),
        ImageVerb::Bytes => {
            let n = line.words.number();
            let at = line.words.byte();
            if let Some(bytes) = line.told.got(line.words.text(alloc)) {
                write_bytes(image, n, at, bytes.as_slice(), &mut line.told);
            }
        }
        ImageVerb::Job => {
            let w = WaitingJob {
                job: line.words.short(),
                jct: line.words.number(),
            };
            line.told.over(match image.jobs.push(w) {
                Ok(()) => Ok(()),
                Err(_) => Err(std::alloc::AllocError),
            });
        }
        ImageVerb::Migrate => migrate(alloc, image, line.words.short(), &mut line.told),
    }
}
