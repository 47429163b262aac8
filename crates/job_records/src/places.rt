//! Records that links lead to.
ghost use Rattle.std.specs.Prelude.{◌≡◌, ℕ, ◌<◌};
ghost use Rattle.cb_meaning.specs.Layouts.{HasOwnFields};
ghost use Rattle.cb_meaning.specs.Spelled.{sct, siot};
ghost use Rattle.cb_read.specs.Kinds.{IsOfKind};
ghost use Rattle.job_records.specs.Recorded.{along, next_dd, next_step};

use crate::lent::{sct_of, siot_of};
use cb_queue::store::RecordStore;

/// The SCT that lies so many links behind another.
pub(crate) fn step_behind<S: RecordStore>(store: &S, first: u32, count: usize) -> u32
    requires own { HasOwnFields (S.queue store.now).layout }
    requires kinds { (k : ℕ) → k < count → IsOfKind (S.queue store.now) sct (along (next_step (S.queue store.now)) first k) }
    ensures { result ≡ along (next_step (S.queue store.now)) first count }
{
    let mut n = first;
    let mut k = 0;
    while k < count {
        n = sct_of(store, n).next();
        k += 1;
    }
    n
}

/// The SIOT that lies so many links behind another.
pub(crate) fn dd_behind<S: RecordStore>(store: &S, first: u32, count: usize) -> u32
    requires own { HasOwnFields (S.queue store.now).layout }
    requires kinds { (k : ℕ) → k < count → IsOfKind (S.queue store.now) siot (along (next_dd (S.queue store.now)) first k) }
    ensures { result ≡ along (next_dd (S.queue store.now)) first count }
{
    let mut n = first;
    let mut k = 0;
    while k < count {
        n = siot_of(store, n).next();
        k += 1;
    }
    n
}
