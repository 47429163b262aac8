//! Arriving at a record: its number, its kind, its owner, and whether it was met.
ghost use Rattle.std.specs.Prelude.{◌≡◌, ◌≢◌, ◌*◌, ◌<◌, List, ℕ, length, replicate};
ghost use Rattle.cb_meaning.specs.Fields.{part};
ghost use Rattle.cb_queue.specs.RecordQueues.{bytes_or_zeros, last_in_use, record_at};
ghost use Rattle.cb_records.specs.Writes.{ChangesOnly, HoldsNumber};
ghost use Rattle.cb_walk.specs.Marks.{AreMarked, Arrives, arrival_told};

use crate::marks::{is_marked, mark};
use cb_meaning::layout::{Field, Layout};
use cb_queue::store::RecordStore;
use cb_records::rec::Rec;

fn write_zeros(own: &mut Rec, f: Field)
    requires { HoldsNumber f }
    ensures value { part own.new f.at f.width ≡ replicate f.width 0 }
    ensures others { ChangesOnly f own.old own.new }
{
    let zeros = [0; 4];
    own.write_part(f, &zeros[..usize::from(f.width)]);
}

/// Brings a record as it is seen, with a link of zeros; zeros where it is free.
pub fn bring<S: RecordStore>(store: &S, n: u32, own: &mut Rec)
    ensures { own.new ≡ bytes_or_zeros (record_at (S.queue store.now) n) }
{
    let layout = store.layout();
    match store.get(n) {
        Some(r) => {
            *own = *r;
            write_zeros(own, layout.link);
        }
        None => *own = Rec::zeroed(),
    }
}

/// What arriving tells, of the record that is there.
fn arrival_told(layout: &Layout, r: &Rec, job: u16, kind: u8, met: bool, n: u32) -> Option<u8>
    ensures { result ≡ arrival_told layout.now r.now job kind met n }
{
    if n < 1 || n > layout.most_records {
        Some(1)
    } else if r.kind() != kind {
        Some(2)
    } else if r.owner() != job {
        Some(3)
    } else if met {
        Some(4)
    } else {
        None
    }
}

/// Arrives at a record of a kind that a job owns and that has no mark. Brings and marks it, or tells its fault.
pub(crate) fn arrive<S: RecordStore>(
    store: &S,
    marks: &mut [u64],
    job: u16,
    kind: u8,
    n: u32,
    own: &mut Rec,
) -> Result<(), u8>
    requires kind { kind ≢ 0 }
    requires marks { last_in_use (S.queue store.now).records < 64 * length marks.old }
    ensures { (seen : List ℕ) → AreMarked marks.old seen → Arrives (S.queue store.now) job kind seen n marks.new own.new result }
{
    let layout = store.layout();
    bring(store, n, own);
    match arrival_told(layout, own, job, kind, is_marked(marks, n), n) {
        Some(fault) => Err(fault),
        None => {
            mark(marks, n);
            Ok(())
        }
    }
}
