//! An image in a store of records, for those who read the records of a store.
ghost use Rattle.std.specs.Prelude.{◌≡◌, ◌≢◌, ◌≤◌, length};
ghost use Rattle.cb_meaning.specs.declared.layout.TheConstants.{LAYOUT_1, RECORD_BYTES};
ghost use Rattle.cb_meaning.specs.Fields.{field, number_at};
ghost use Rattle.cb_queue.specs.RecordQueues.{empty_queue};
ghost use Rattle.cb_records.specs.Writes.{ChangesOnly};
ghost use Rattle.queue_images.specs.declared.image.TheConstants.{IMAGE_BYTES};
ghost use Rattle.queue_images.specs.Loading.{IsLoaded, LoadsNext, shown_owner};

use cb_chain::laws::the_layouts_hold_jobs;
use cb_chain::write::take_first;
use cb_meaning::layout::{LAYOUT_1, RECORD_BYTES};
use cb_queue::store::RecordStore;
use cb_records::rec::{OWNER, Rec, read_rec};

/// Who owns the records of an image that nobody owns: it is the number of no job.
const NOBODY: u32 = 65_535;

/// A record with an owner, whoever it is.
fn with_owner(mut rec: Rec) -> Rec
    ensures owner { number_at result (field 2 2) ≡ shown_owner (number_at rec (field 2 2)) }
    ensures others { ChangesOnly (field 2 2) rec result }
    ensures owned { number_at rec (field 2 2) ≢ 0 → result ≡ rec }
{
    if rec.owner() == 0 {
        rec.write_number(OWNER, NOBODY);
    }
    rec
}

/// A record of an image, with an owner.
fn owned_record(bytes: &[u8]) -> Rec
    requires { length bytes.now ≡ RECORD_BYTES }
    ensures owner { number_at result (field 2 2) ≡ shown_owner (number_at bytes.now (field 2 2)) }
    ensures others { ChangesOnly (field 2 2) bytes.now result }
    ensures owned { number_at bytes.now (field 2 2) ≢ 0 → result ≡ bytes.now }
{
    match read_rec(bytes) {
        Some(rec) => with_owner(rec),
        None => unreachable!(),
    }
}

/// Puts a record of an image into the next record of a store, which has memory for all of them.
fn load_next<S: RecordStore>(store: &mut S, bytes: &[u8])
    requires size { length bytes.now ≡ RECORD_BYTES }
    requires room { S.lacking store.old ≡ 0 }
    requires free { 1 ≤ length (S.queue store.old).free }
    requires layout { (S.queue store.old).layout ≡ LAYOUT_1 }
    ensures loads { LoadsNext bytes.now (S.queue store.old) (S.queue store.new) }
    ensures room { S.lacking store.new ≡ 0 }
{
    the_layouts_hold_jobs();
    let rec = owned_record(bytes);
    let n = take_first(store, rec.owner());
    store.put(n, &rec);
}

/// Puts the records of an image into those of a store of as many, all of which are free and have memory.
pub(crate) fn load<S: RecordStore>(store: &mut S, image: &[u8])
    requires size { length image.now ≡ IMAGE_BYTES }
    requires empty { S.queue store.old ≡ empty_queue LAYOUT_1 }
    requires room { S.lacking store.old ≡ 0 }
    ensures { IsLoaded image.now (S.queue store.new) }
{
    the_layouts_hold_jobs();
    let count = LAYOUT_1.most_records as usize;
    for n in 0..count {
        load_next(store, &image[n * RECORD_BYTES..(n + 1) * RECORD_BYTES]);
    }
}
