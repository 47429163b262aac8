//! The records of a store.
ghost use Rattle.std.specs.Prelude.{◌≡◌};
ghost use Rattle.cb_queue.specs.RecordQueues.{shown};
ghost use Rattle.walk_laws.specs.WalkLaws.{AreRecords};

use cb_queue::store::RecordStore;
use cb_records::rec::Rec;
use cb_walk::arrival::bring;

/// A record by its number, zeros where it is free.
pub(crate) fn record<S: RecordStore>(store: &S, n: u32) -> Rec
    ensures { result ≡ (shown (S.queue store.now)).at n }
{
    let mut own = Rec::zeroed();
    bring(store, n, &mut own);
    own
}

/// Each record of a store is whole and of bytes.
pub fn are_records<S: RecordStore>(store: &S)
    ensures { AreRecords (shown (S.queue store.now)) }
{
    let _layout = store.layout();
}
